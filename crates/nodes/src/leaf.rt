use crate::entry::Entry;
use crate::few::Few;
use crate::sizes::MOST_ENTRIES;
use std::alloc::AllocError;

/// A leaf: its entries, and the next leaf to the right.
#[derive(Copy, PartialEq, Eq, Debug)]
pub struct Leaf {
    pub next: u32,
    pub entries: Few<Entry, MOST_ENTRIES>,
}

// By hand, to say that a clone is the leaf itself and never fails.
impl Clone for Leaf {
    ghost use Rattle.std.specs.Prelude.{◌≡◌};

    ghost is_clone = { λ a b. b ≡ a };

    ghost is_infallible = { λ _. Unit {0} };

    fn clone(&self) -> Result<Leaf, AllocError> {
        Ok(*self)
    }
}
