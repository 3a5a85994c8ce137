ghost use Rattle.std.specs.Prelude.{◌<◌, length};
ghost use Rattle.nodes.specs.Few.{items};

use crate::few::Few;
use crate::sizes::MOST_POSTINGS;
use std::alloc::AllocError;

/// A record page: its postings, newest first, and the next record of the chain.
#[derive(Copy, PartialEq, Eq, Debug)]
pub struct Record {
    pub next: u32,
    pub postings: Few<u64, MOST_POSTINGS>,
    ghost has_a_posting: { 0 < length (items postings) },
}

// By hand, to say that a clone is the record itself and never fails.
impl Clone for Record {
    ghost use Rattle.std.specs.Prelude.{◌≡◌};

    ghost is_clone = { λ a b. b ≡ a };

    ghost is_infallible = { λ _. Unit {0} };

    fn clone(&self) -> Result<Record, AllocError> {
        Ok(*self)
    }
}
