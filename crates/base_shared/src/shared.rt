//! A value with several owners.

ghost use Rattle.std.specs.Prelude.{◌≡◌, IfOk};

use std::alloc::{AllocError, Global};
use std::cmp::Ordering;
use std::marker::Model;
use std::sync::Arc;

/// A value on the heap that has one or more owners, in any threads, and is freed with the last of them. It is compared as
/// the value is. Contracts see the value.
#[derive(Drop)]
pub struct Shared<T: Drop> {
    value: Arc<T>,
}

impl<T: Drop> Model for Shared<T> {
    ghost use Rattle.std.specs.Arc.{arc_value};

    ghost Value = { T };

    ghost view = { λ s. arc_value s.value };
}

impl<T: Drop> Shared<T> {
    /// The value with one owner. AllocError comes where memory for it is refused.
    pub fn new(alloc: Global, value: T) -> Result<Shared<T>, AllocError>
        ensures { IfOk result (λ s. s ≡ value) }
    {
        Ok(Shared {
            value: Arc::new(alloc, value)?,
        })
    }

    /// One more owner. Takes no memory: AllocError comes only where the owners can't be counted any more, at 2^63.
    pub fn again(&self) -> Result<Shared<T>, AllocError>
        ensures { IfOk result (λ s. s ≡ self.now) }
    {
        Ok(Shared {
            value: Arc::try_clone(&self.value)?,
        })
    }

    /// The value.
    pub fn get(&self) -> &T
        ensures { result.now ≡ self.now }
    {
        &*self.value
    }
}

impl<T: Drop + PartialEq> PartialEq for Shared<T> {
    ghost eq = { λ x y. T.eq x y };

    ghost laws = { T.PartialEq.laws };

    fn eq(&self, other: &Shared<T>) -> bool {
        *self.get() == *other.get()
    }
}

impl<T: Drop + Eq> Eq for Shared<T> {
    ghost laws = { T.Eq.laws };
}

impl<T: Drop + PartialOrd> PartialOrd for Shared<T> {
    ghost partial_cmp = { λ x y. T.partial_cmp x y };

    ghost laws = { T.PartialOrd.laws };

    fn partial_cmp(&self, other: &Shared<T>) -> Option<Ordering> {
        self.get().partial_cmp(other.get())
    }
}

impl<T: Drop + Ord> Ord for Shared<T> {
    ghost cmp = { λ x y. T.cmp x y };

    ghost total = { T.total };

    ghost matches_partial_cmp = { T.matches_partial_cmp };

    ghost matches_eq = { T.matches_eq };

    fn cmp(&self, other: &Shared<T>) -> Ordering {
        self.get().cmp(other.get())
    }
}
