//! What a caller was told at one cell.

ghost use Rattle.std.specs.Prelude.{◌≡◌, [], max};
ghost use Rattle.tq_cells.specs.Passes.{seen_by};

use crate::receipt::Receipt;
use std::alloc::Global;
use std::marker::Model;
use tq_shape::Answers;

/// What one caller was told at one cell: the receipts in the order of its calls, and the greatest number of an entry
/// that it was told of. It is plain data.
#[derive(Drop)]
pub struct Pass<P: Answers> {
    pub(crate) receipts: Vec<Receipt<P>>,
    pub(crate) seen: u64,
}

impl<P: Answers> Model for Pass<P> {
    ghost use Rattle.tq_cells.specs.Passes.{Seen, seen_by};

    ghost Value = { Seen P.Ask P.Reply };

    ghost view = { λ p. seen_by p.receipts.items p.seen };
}

impl<P: Answers> Pass<P> {
    pub(crate) fn new(alloc: Global) -> Pass<P>
        ensures { result ≡ seen_by [] 0 }
    {
        Pass {
            receipts: Vec::new(alloc),
            seen: 0,
        }
    }

    /// The receipts, in the order of the calls.
    pub fn receipts(&self) -> &[Receipt<P>]
        ensures { result.now ≡ self.now.receipts }
    {
        self.receipts.as_slice()
    }

    /// The greatest number of an entry that the caller was told of, 0 where it was told of none.
    pub fn seen(&self) -> u64
        ensures { result ≡ self.now.seen }
    {
        self.seen
    }

    /// Has seen what another pass of the same cell has seen, too. The receipts stay.
    pub fn see(&mut self, other: &Pass<P>)
        ensures receipts { self.new.receipts ≡ self.old.receipts }
        ensures seen { self.new.seen ≡ max self.old.seen other.now.seen }
    {
        self.seen = self.seen.max(other.seen);
    }

    pub(crate) fn into_receipts(self) -> Vec<Receipt<P>>
        ensures { result.items ≡ self.receipts }
    {
        let Pass { receipts, seen: _ } = self;
        receipts
    }
}
