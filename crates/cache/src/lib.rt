//! A cache of four pages over any page store.
#![tactic(auto)]

ghost use Rattle.std.specs.Prelude.{◌≡◌, ℕ, ◌<◌, true};
ghost use Rattle.cache.specs.Holding.{all_apart, pages_of};

use crate::held::Entry;
use arrayvec::ArrayVec;

pub mod calls;
pub mod held;

/// Holds up to four pages of the store below, and marks those that may differ from it.
#[derive(Drop)]
pub struct Cache<S> {
    below: S,
    held: ArrayVec<Entry, 4>,
    turn: usize,
    ghost goes_round: { turn < 4 },
    ghost holds_none_twice: { all_apart (pages_of held.items) ≡ true },
}
