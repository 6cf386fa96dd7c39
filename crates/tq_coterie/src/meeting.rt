//! Where two quorums meet.

ghost use Rattle.std.specs.{Prelude.{◌≡◌, ◌==◌}, List.list_any};
ghost use Rattle.tq_coterie.specs.Coterie.{AnyTwoMeet, IsLeastOfBoth, first_common};

use crate::Quorum;
use tq_shape::ServerId;

/// The least server of both quorums. There is one, since any two quorums of one tree have a server in common. It
/// takes no memory.
pub fn meet(some: &Quorum, others: &Quorum) -> ServerId
    requires { some.now.levels ≡ others.now.levels }
    ensures least { IsLeastOfBoth some.now.servers others.now.servers result.number }
    ensures tree { result.levels ≡ some.now.levels }
    ensures any_two { AnyTwoMeet some.now.levels }
{
    match first_in(some.servers(), others.servers()) {
        Some(server) => server,
        None => unreachable!(),
    }
}

/// The first server that is among the others.
fn first_in(servers: &[ServerId], others: &[ServerId]) -> Option<ServerId>
    ensures { result ≡ first_common servers.now others.now }
{
    servers
        .iter()
        .copied()
        .find(|server| has_number(others, server.number()))
}

/// Whether a server of that number is among them.
fn has_number(servers: &[ServerId], number: u64) -> bool
    ensures { result ≡ list_any (λ server. server.number == number) servers.now }
{
    servers.iter().any(|server| server.number() == number)
}
