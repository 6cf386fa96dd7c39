//! Whether ops have a server, found by halving: their grants ascend by server.

ghost use Rattle.std.specs.Prelude.{◌≡◌, map, true};
ghost use Rattle.tq_evidence.specs.Evidence as spec;

use crate::{Grant, Op};

/// Whether some op has the server.
pub(crate) fn is_server_of(ops: &[Op], server: u64) -> bool
    requires { spec.are_in_order ops.now ≡ true }
    ensures { result ≡ spec.is_server_of ops.now server }
{
    match ops {
        [] => false,
        [op, ..] => finds_server(op, server) || is_server_of(&ops[1..], server),
    }
}

/// Whether the op has the server, as `has_server` says, by halving.
pub(crate) fn finds_server(op: &Op, server: u64) -> bool
    requires { spec.rises (spec.servers_of op.now) ≡ true }
    ensures { result ≡ spec.has_server op.now server }
{
    let grants = op.grants.as_slice();
    is_granted(grants, server)
}

fn is_granted(grants: &[Grant], server: u64) -> bool
    requires { spec.rises (spec.granters grants.now) ≡ true }
    ensures { result ≡ spec.is_granter grants.now server }
{
    if grants.is_empty() {
        return false;
    }
    let middle = grants.len() / 2;
    let grant = &grants[middle];
    if grant.server == server {
        return true;
    }
    if grant.server < server {
        return is_granted(&grants[middle + 1..], server);
    }
    is_granted(&grants[..middle], server)
}
