//! A list of grants and its servers.

ghost use Rattle.std.specs.{Prelude.{◌≡◌, IfOk}, Option.option_copied};
ghost use Rattle.tq_evidence.specs.Evidence as spec;

use crate::Grant;
use smallvec::SmallVec;
use std::alloc::Global;
use tq_shape::Memory;

/// Numbers of servers, of which sixteen need no memory.
pub type Numbers = SmallVec<u64, 16>;

/// The servers of the grants, in their order.
pub fn granters(alloc: Global, grants: &[Grant]) -> Result<Numbers, Memory>
    ensures { IfOk result (λ servers. servers.items ≡ spec.granters grants.now) }
{
    let mut servers = Numbers::with_capacity(alloc, grants.len())?;
    for grant in grants {
        servers.push_reserved(grant.server);
    }
    Ok(servers)
}

/// Whether the numbers strictly ascend.
pub fn rises(numbers: &[u64]) -> bool
    ensures { result ≡ spec.rises numbers.now }
{
    match numbers {
        [] => true,
        [_] => true,
        [first, second, ..] => *first < *second && rises(&numbers[1..]),
    }
}

/// The first grant of the greatest version.
pub fn newest(grants: &[Grant]) -> Option<&Grant>
    ensures { option_copied result ≡ spec.newest grants.now }
{
    let greatest = greatest_version(grants);
    grants.iter().find(|grant| grant.version == greatest)
}

/// The greatest version granted, 0 where there is no grant.
pub fn greatest_version(grants: &[Grant]) -> u64
    ensures { result ≡ spec.greatest grants.now }
{
    grants.iter().fold(0, |most, grant| most.max(grant.version))
}
