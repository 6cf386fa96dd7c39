//! Which entries of a journal are named.

ghost use Rattle.std.specs.Prelude.{◌≡◌, ◌≤◌, ◌-◌, ◌*◌, All, false, true, not, count_by, get_or, length, map, replicate, set, IfOk};
ghost use Rattle.std.specs.List.{sum_by};

use std::alloc::Global;
use std::marker::Model;
use tq_shape::Memory;

/// Which entries of one journal are named, the oldest first.
#[derive(Drop)]
pub(crate) struct Marks {
    marks: Vec<bool>,
}

impl Model for Marks {
    ghost use Rattle.std.specs.Prelude.{List, Bool};

    ghost Value = { List Bool };

    ghost view = { λ m. m.marks.items };
}

impl Marks {
    /// None of so many entries is named.
    fn new(alloc: Global, count: u64) -> Result<Marks, Memory>
        ensures { IfOk result (λ marks. marks ≡ replicate count false) }
    {
        Ok(Marks {
            marks: vec![in alloc; false; count as usize]?,
        })
    }

    /// Names the entry of that number. Whether it was not named before.
    pub(crate) fn name(&mut self, number: u64) -> bool
        requires least { 1 ≤ number }
        requires most { number ≤ length self.old }
        ensures fresh { result ≡ not (get_or self.old (number - 1) false) }
        ensures named { self.new ≡ set self.old (number - 1) true }
    {
        let index = (number - 1) as usize;
        let named = self.marks[index];
        self.marks[index] = true;
        !named
    }

    /// How many entries are not named.
    fn unnamed_count(&self) -> u64
        ensures value { result ≡ count_by not self.now }
        ensures within { result ≤ length self.now }
    {
        self.marks.iter().filter(|named| !**named).count() as u64
    }
}

/// Of each journal, where so many entries are counted for each, that none is named.
pub(crate) fn none_named(alloc: Global, counts: &[u64]) -> Result<Vec<Marks>, Memory>
    ensures { IfOk result (λ marks. marks.items ≡ map (λ count. replicate count false) counts.now) }
{
    let mut marks = Vec::new(alloc);
    for count in counts {
        marks.push(Marks::new(alloc, *count)?)?;
    }
    Ok(marks)
}

/// How many entries of all journals are not named.
pub(crate) fn unnamed_in(marks: &[Marks]) -> u64
    requires few { length marks.now ≤ 1048576 }
    requires short { All (λ named. length named ≤ 1000000) marks.now }
    ensures { result ≡ sum_by (count_by not) marks.now }
{
    let mut unnamed = 0;
    for named in marks {
        unnamed += named.unnamed_count();
    }
    unnamed
}
