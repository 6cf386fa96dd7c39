//! Gates by which threads wait for one another, and one that counts.

use std::sync::atomic::{AtomicBool, AtomicU64, Ordering};
use tq_cells::Gate;
use tq_shape::Part;

/// How often a thread looks for what another does before it gives up.
const TURNS: u64 = 1_000_000_000;

/// Something that comes to be, and for which threads look.
#[derive(Drop)]
struct Sign(AtomicBool);

impl Sign {
    fn new() -> Sign {
        Sign(AtomicBool::new(false))
    }

    fn give(&self) {
        self.0.store(true, Ordering::SeqCst);
    }

    fn is_given(&self) -> bool {
        self.0.load(Ordering::SeqCst)
    }

    /// Looks until it is given, or some thread has given up. One that looked too often gives up.
    fn await_or(&self, gave_up: &Sign) {
        for _ in 0..TURNS {
            if self.is_given() || gave_up.is_given() {
                return;
            }
        }
        gave_up.give();
    }
}

/// Two things that come to be, each in a thread that may wait for the other.
#[derive(Drop)]
pub(crate) struct Meeting {
    /// Threads wait for one another from here on, where a gate asks for it.
    shut: Sign,
    first: Sign,
    second: Sign,
    gave_up: Sign,
}

impl Meeting {
    pub(crate) fn new() -> Meeting {
        Meeting {
            shut: Sign::new(),
            first: Sign::new(),
            second: Sign::new(),
            gave_up: Sign::new(),
        }
    }

    pub(crate) fn shut(&self) {
        self.shut.give();
    }

    /// Looks until the first came.
    pub(crate) fn await_first(&self) {
        self.first.await_or(&self.gave_up);
    }

    /// Both came, and no thread gave up waiting.
    pub(crate) fn has_met(&self) -> bool {
        self.first.is_given() && self.second.is_given() && !self.gave_up.is_given()
    }

    fn meet(&self, mine: &Sign, other: &Sign) {
        mine.give();
        other.await_or(&self.gave_up);
    }
}

/// Holds a call at server 1, under its lock, until a call at server 2 was answered and has given its lock back.
#[derive(Clone, Copy)]
pub(crate) struct Across<'a>(pub(crate) &'a Meeting);

impl<'a> Gate for Across<'a> {
    fn holding(&self, part: Part) {
        if part == Part::Server(1) {
            self.0.meet(&self.0.first, &self.0.second);
        }
    }

    fn answered(&self, part: Part) {
        if part == Part::Server(2) {
            self.0.second.give();
        }
    }
}

/// Where it is shut: holds a call at server 1 or 2, under the lock of that server, until calls at both are held.
#[derive(Clone, Copy)]
pub(crate) struct At<'a>(pub(crate) &'a Meeting);

impl<'a> Gate for At<'a> {
    fn holding(&self, part: Part) {
        let meeting = self.0;
        if !meeting.shut.is_given() {
            return;
        }
        match part {
            Part::Server(1) => meeting.meet(&meeting.first, &meeting.second),
            Part::Server(2) => meeting.meet(&meeting.second, &meeting.first),
            _ => {}
        }
    }

    fn answered(&self, _part: Part) {}
}

/// Where it is shut: holds the first call at server 1, under its lock, until a call holds the lock of the view; and whom
/// the view has answered, until a call holds the lock of server 1.
#[derive(Clone, Copy)]
pub(crate) struct By<'a>(pub(crate) &'a Meeting);

impl<'a> Gate for By<'a> {
    fn holding(&self, part: Part) {
        let meeting = self.0;
        if !meeting.shut.is_given() {
            return;
        }
        match part {
            Part::Server(1) => meeting.meet(&meeting.first, &meeting.second),
            Part::View => meeting.second.give(),
            _ => {}
        }
    }

    fn answered(&self, part: Part) {
        let meeting = self.0;
        if meeting.shut.is_given() && part == Part::View {
            meeting.await_first();
        }
    }
}

/// Counts what a gate is told, part by part: each call that holds a lock, and by millions each that gave it back.
#[derive(Drop)]
pub(crate) struct Tally(AtomicU64);

impl Tally {
    pub(crate) fn new() -> Tally {
        Tally(AtomicU64::new(0))
    }

    /// So many calls at the desk, at the view and at servers held a lock, and as many gave it back.
    pub(crate) fn is(&self, desk: u64, view: u64, servers: u64) -> bool {
        let calls = servers
            .wrapping_mul(100)
            .wrapping_add(view)
            .wrapping_mul(100)
            .wrapping_add(desk);
        self.0.load(Ordering::SeqCst) == calls.wrapping_mul(1_000_001)
    }
}

/// What a call at the part counts.
fn weight(part: Part) -> u64 {
    match part {
        Part::Desk => 1,
        Part::View => 100,
        Part::Server(_) => 10_000,
    }
}

/// A tally, as several may have it.
#[derive(Clone, Copy)]
pub(crate) struct Counted<'a>(pub(crate) &'a Tally);

impl<'a> Gate for Counted<'a> {
    fn holding(&self, part: Part) {
        self.0.0.fetch_add(weight(part), Ordering::SeqCst);
    }

    fn answered(&self, part: Part) {
        self.0
            .0
            .fetch_add(weight(part).wrapping_mul(1_000_000), Ordering::SeqCst);
    }
}
