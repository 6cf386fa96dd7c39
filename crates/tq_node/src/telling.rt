//! A reply told twice, where an ask is answered at once.

ghost use Rattle.std.specs.Prelude.{◌≡◌, [], ◌∷◌, IfOk};
ghost use Rattle.tq_node.specs.Telling.{step_raises};

use crate::{NodeReply, NodeStep};
use std::alloc::Global;
use tq_intents::NewerWrite;
use tq_shape::{Memory, SharedSeq};
use tq_store::Write;

/// A server's reply, twice: one to enter into the journal and one to tell. And the files whose copies there it may have
/// raised.
#[derive(Drop)]
pub struct Telling {
    pub entered: NodeReply,
    pub told: NodeReply,
    pub raised: Raised,
}

/// The files whose copies an ask may have raised. The copy of each is of the version told, or of a later one, from then on.
#[derive(Drop)]
pub enum Raised {
    /// None.
    Nothing,
    /// Those of the writes.
    Written(SharedSeq<Write>),
    /// The one that the ask, a refresh, offers. It stands in the ask, and is not told again.
    Asked,
}

impl Raised {
    /// What the step may raise.
    pub(crate) fn by(alloc: Global, step: &NodeStep) -> Result<Raised, Memory>
        ensures { IfOk result (λ raised. raised ≡ step_raises step.now) }
    {
        match step {
            NodeStep::Install { writes, .. } => Ok(Raised::Written(writes.clone()?)),
            NodeStep::Copies { newer } => {
                let writes = writes_of(alloc, newer.as_slice())?;
                Ok(Raised::Written(writes))
            }
            NodeStep::Refresh { write } => {
                let writes = alone(alloc, write)?;
                Ok(Raised::Written(writes))
            }
            _ => Ok(Raised::Nothing),
        }
    }
}

/// The writes, in a list of their own.
fn writes_of(alloc: Global, newer: &[NewerWrite]) -> Result<SharedSeq<Write>, Memory>
    ensures { IfOk result (λ writes. writes ≡ newer.now) }
{
    let mut writes = Vec::new(alloc);
    for write in newer {
        let listed = write.get();
        writes.push(listed.write()?)?;
    }
    Ok(SharedSeq::from_vec(writes)?)
}

/// A list of that write alone.
fn alone(alloc: Global, write: &Write) -> Result<SharedSeq<Write>, Memory>
    ensures { IfOk result (λ writes. writes ≡ write.now ∷ []) }
{
    let mut writes = Vec::new(alloc);
    writes.push(write.clone()?)?;
    Ok(SharedSeq::from_vec(writes)?)
}
