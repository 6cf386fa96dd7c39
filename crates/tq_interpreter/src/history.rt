//! A list that contracts alone see.
ghost use Rattle.std.specs.{Prelude.{◌≡◌, List}, Coded.coded_list};
ghost use base.Fml.{ftrue};

use std::marker::{Model, PhantomData};

/// A list that contracts alone see: it has no bytes, and no code can read it. What it says is what the contract of its
/// owner ties it to, and nothing by itself.
pub(crate) struct History<T> {
    marker: PhantomData<T>,
    pub ghost items: { List T } by { coded_list T.code },
}

impl<T> Model for History<T> {
    ghost also_owns = { λ _. ftrue };
}

impl<T> History<T> {
    /// The history of a list that the caller's proof picks, by what these facts show. It takes no memory.
    pub(crate) fn of<A>(facts: &A) -> History<T>
        ghost list: { List T }
        ensures { result.items ≡ list }
    {
        let _ = facts;
        History {
            marker: PhantomData,
        }
    }
}

impl<T> Drop for History<T> {
    fn drop(self) {
        let Self { marker: _ } = self;
    }
}
