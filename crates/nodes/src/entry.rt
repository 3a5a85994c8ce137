ghost use Rattle.std.specs.Prelude.{◌≡◌, length};

use crate::few::Few;
use crate::sizes::{KEY_SIZE, MOST_INLINE};
use std::alloc::AllocError;

/// An entry of a leaf: the inline postings, and the chain by its head page and number of postings.
#[derive(Copy, PartialEq, Eq, Debug)]
pub struct Entry {
    pub key: [u8; KEY_SIZE],
    pub inline: Few<u64, MOST_INLINE>,
    pub head: u32,
    pub chained: u32,
    ghost has_24_key_bytes: { length key ≡ 24 },
}

// By hand: no Default is derived for what has ghost fields.
/// An entry of zeros, without postings.
impl Default for Entry {
    ghost use Rattle.std.specs.Prelude.{[], replicate};
    ghost use Rattle.nodes.specs.Few.{items};

    ghost is_default = { λ e. (e.key ≡ replicate 24 0) × (items e.inline ≡ []) × (e.head ≡ 0) × (e.chained ≡ 0) };

    fn default() -> Entry {
        Entry {
            key: [0; KEY_SIZE],
            inline: Few::new(),
            head: 0,
            chained: 0,
        }
    }
}

// By hand, to say that a clone is the entry itself and never fails.
impl Clone for Entry {
    ghost is_clone = { λ a b. b ≡ a };

    ghost is_infallible = { λ _. Unit {0} };

    fn clone(&self) -> Result<Entry, AllocError> {
        Ok(*self)
    }
}
