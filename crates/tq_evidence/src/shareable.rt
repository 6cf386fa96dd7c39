//! A list that is owned until it is shared.

ghost use Rattle.std.specs.Prelude.{◌≡◌, IfOk};

use std::alloc::AllocError;
use std::marker::Model;
use tq_shape::{ExactClone, Memory, SharedSeq};

/// A list that takes no more memory than its vector, until it is shared: from then on a clone is a count, not a copy.
/// Contracts see it as the list alone.
pub struct Shareable<T> {
    form: Form<T>,
}

// Written out, so that a crate above lets go of one by a call.
impl<T: Drop> Drop for Shareable<T> {
    fn drop(self) {
        let Self { form: _ } = self;
    }
}

/// Where the items stand.
#[derive(Drop)]
enum Form<T> {
    Owned(Vec<T>),
    Shared(SharedSeq<T>),
}

impl<T> Model for Shareable<T> {
    ghost use Rattle.std.specs.{Prelude.List, Coded.coded_list};
    ghost use Rattle.tq_evidence.specs.Shareable.{items_of};

    ghost Value = { List T };

    ghost coded = { coded_list T.code };

    ghost view = { λ a. items_of a.form };
}

impl<T> Shareable<T> {
    /// The list that a vector holds. It takes no memory.
    pub fn from_vec(items: Vec<T>) -> Self
        ensures { result ≡ items.items }
    {
        Shareable {
            form: Form::Owned(items),
        }
    }

    /// The values, in order.
    pub fn as_slice(&self) -> &[T]
        ensures { result.now ≡ self.now }
    {
        match &self.form {
            Form::Owned(items) => items.as_slice(),
            Form::Shared(items) => items.as_slice(),
        }
    }
}

impl<T: Drop> Shareable<T> {
    /// Has its clones share the list from now on, with no room to spare. Out of memory leaves it as it was.
    pub fn share(&mut self) -> Result<(), Memory>
        ensures { self.new ≡ self.old }
    {
        let Form::Owned(items) = &mut self.form else {
            return Ok(());
        };
        let mut exact = Vec::with_capacity(*items.allocator(), items.len())?;
        exact.append(items)?;
        match SharedSeq::from_vec(exact) {
            Ok(shared) => {
                self.form = Form::Shared(shared);
                Ok(())
            }
            Err(refused) => {
                self.form = Form::Owned(refused.value);
                Err(AllocError)
            }
        }
    }
}

impl<T: ExactClone> Shareable<T> {
    /// The list as clones share it: a count where it is shared, and else a copy.
    pub fn shared(&self) -> Result<SharedSeq<T>, Memory>
        ensures { IfOk result (λ list. list ≡ self.now) }
    {
        match &self.form {
            Form::Owned(items) => Ok(SharedSeq::from_vec(items.clone()?)?),
            Form::Shared(items) => Ok(items.clone()?),
        }
    }
}

impl<T: ExactClone> Clone for Shareable<T> {
    ghost use Rattle.std.specs.Prelude.{◌≡◌};

    ghost is_clone = { λ x y. y ≡ x };

    fn clone(&self) -> Result<Self, AllocError> {
        match &self.form {
            Form::Owned(items) => Ok(Shareable {
                form: Form::Owned(items.clone()?),
            }),
            Form::Shared(items) => Ok(Shareable {
                form: Form::Shared(items.clone()?),
            }),
        }
    }
}

impl<T: PartialEq> PartialEq for Shareable<T> {
    ghost use Rattle.std.specs.Cmp.Lexicographic.{lists_per, pointwise};

    ghost eq = { pointwise T.eq };

    ghost laws = { lists_per T.laws };

    fn eq(&self, other: &Self) -> bool {
        self.as_slice() == other.as_slice()
    }
}

impl<T: ExactClone> ExactClone for Shareable<T> {
    ghost clones = { λ x y h. h };
}
