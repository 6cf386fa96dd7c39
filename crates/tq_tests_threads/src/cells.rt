//! A cell that is asked until it is full.

use crate::gates::{Counted, Tally};
use std::alloc::Global;
use std::mem::forget;
use std::process::Abort;
use std::sync::Wait;
use tq_cells::{CallFault, Cell, Pass};
use tq_shape::{Answers, Memory, Part, Plan};

/// A part that replies what it is asked. It holds nothing that is dropped, so that its cell is cheap to prove.
#[derive(Clone, Copy)]
struct Echo;

impl Answers for Echo {
    ghost use Rattle.std.specs.Prelude.{refl};

    type Ask = u8;

    type Reply = u8;

    type Change = u8;

    ghost opening = { λ s. s };

    ghost is_ready = { λ s n. Unit {0} };

    ghost reply = { λ s n a. a };

    ghost after = { λ s n a. s };

    ghost change = { λ s n a. a };

    ghost fits = { λ s c. Unit {0} };

    ghost changed = { λ s c. s };

    fn plan(&self, _alloc: Global, _number: u64, ask: &u8) -> Result<Plan<u8, u8>, Memory> {
        Ok(Plan {
            reply: *ask,
            change: *ask,
        })
    }

    fn apply(&mut self, _alloc: Global, _planned: u8) -> Result<(), Memory> {
        Ok(())
    }

    fn copy(&self, _alloc: Global) -> Result<Echo, Memory> {
        Ok(Echo)
    }

    fn same_ask(_alloc: Global, ask: &u8) -> Result<u8, Memory> {
        Ok(*ask)
    }

    fn same_reply(_alloc: Global, given: &u8) -> Result<u8, Memory> {
        Ok(*given)
    }

    ghost plan_fits = { λ s n a h. tt };

    ghost plan_leads = { λ s n a h. refl };

    ghost opens_ready = { λ s. tt };

    ghost stays_ready = { λ s n a h. tt };

    ghost keeps_settings = { λ s n a. refl };
}

/// The ask is answered under the number.
fn is_answered<R: Wait + Abort>(
    rt: &R,
    alloc: Global,
    cell: &Cell<Echo>,
    pass: &mut Pass<Echo>,
    tally: &Tally,
    ask: u8,
    number: u64,
) {
    let told = cell.call(rt, alloc, pass, &Counted(tally), ask);
    assert!(rt; matches!(&told, Ok(told) if told.number() == number && *told.reply() == ask));
    forget(told);
}

/// The journal is full, and the pass stays as it is.
fn is_refused<R: Wait + Abort>(
    rt: &R,
    alloc: Global,
    cell: &Cell<Echo>,
    pass: &mut Pass<Echo>,
    tally: &Tally,
) {
    let told = cell.call(rt, alloc, pass, &Counted(tally), 7);
    assert!(rt; matches!(&told, Err(CallFault::JournalFull)));
    assert!(rt; pass.seen() == 2 && pass.receipts().len() == 2);
    forget(told);
}

/// A pass that was told nothing is told so many entries after the number, and has then seen the last of them.
fn tells<R: Wait + Abort>(rt: &R, alloc: Global, cell: &Cell<Echo>, number: u64, count: usize) {
    let mut pass = cell.pass(alloc);
    let entries = cell.since(rt, alloc, &mut pass, number);
    assert!(rt; matches!(&entries, Ok(told) if told.len() == count));
    assert!(rt; pass.seen() == if count == 0 { 0 } else { 2 });
    forget(entries);
    forget(pass);
}

/// As many entries come out as receipts.
fn ends<R: Abort>(rt: &R, alloc: Global, cell: Cell<Echo>, pass: Pass<Echo>) {
    let mut passes = Vec::new(alloc);
    passes.push(cell.pass(alloc)).expect(rt, "memory");
    passes.push(pass).expect(rt, "memory");
    let ended = cell.into_journal(alloc, passes);
    assert!(rt; matches!(&ended, Ok((journal, told)) if journal.len() == 2 && told.len() == 2));
    forget(ended);
}

/// A cell whose journal may have two entries is asked three times: the receipts count up to the limit, the third ask is
/// not taken, and the gate is told of each. The cell tells all its entries.
#[test]
fn a_cell_is_asked_until_it_is_full(rt: HostRuntime) {
    let alloc = rt.alloc();
    let cell = Cell::new(alloc, Part::Desk, Echo, 2);
    let tally = Tally::new();
    let mut pass = cell.pass(alloc);
    is_answered(&rt, alloc, &cell, &mut pass, &tally, 5, 1);
    is_answered(&rt, alloc, &cell, &mut pass, &tally, 6, 2);
    is_refused(&rt, alloc, &cell, &mut pass, &tally);
    assert!(rt; tally.is(3, 0, 0));
    tells(&rt, alloc, &cell, 0, 2);
    tells(&rt, alloc, &cell, 1, 1);
    tells(&rt, alloc, &cell, 2, 0);
    tells(&rt, alloc, &cell, 3, 0);
    ends(&rt, alloc, cell, pass);
}
