//! The lengths of journals.

ghost use Rattle.std.specs.Prelude.{◌≡◌, ◌≤◌, All, IfOk, vec_len};
ghost use Rattle.tq_merge.specs.Told.{entry_counts};

use std::alloc::Global;
use tq_shape::Memory;
use tq_tables::Journals;

/// How many entries the desk, the view and each server have, upwards from server 0, of which there is none.
pub(crate) fn counts(alloc: Global, journals: &Journals) -> Result<Vec<u64>, Memory>
    ensures value { IfOk result (λ counts. counts.items ≡ entry_counts journals.now) }
    ensures few { IfOk result (λ counts. vec_len counts ≤ 1048576) }
    ensures short { IfOk result (λ counts. All (λ count. count ≤ 1000000) counts.items) }
{
    let servers = journals.servers();
    let _most = journals.levels().servers();
    let _fits = journals.limits().entries();
    let mut counts = Vec::with_capacity(alloc, servers.len() + 3)?;
    counts.push_reserved(journals.desk().len() as u64);
    counts.push_reserved(journals.view().len() as u64);
    counts.push_reserved(0);
    for entries in servers {
        counts.push(entries.as_slice().len() as u64)?;
    }
    Ok(counts)
}
