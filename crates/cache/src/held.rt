ghost use Rattle.std.specs.Prelude.{◌≡◌, ℕ, ◌<◌, length, slice_index};

use page_store::PAGE_SIZE;

/// A page that a cache holds.
#[derive(Clone, Copy)]
pub struct Held {
    pub page: u32,
    pub bytes: [u8; PAGE_SIZE],
    ghost is_whole: { length bytes ≡ 512 },
    ghost has_bytes: { ((k : ℕ) → slice_index bytes k < 256) },
}

/// Whether the store below may have other bytes in a held page.
#[derive(Clone, Copy, PartialEq, Eq)]
pub(crate) enum Mark {
    /// It was read, and the store below has it as far as is known.
    Clean,
    /// It was written since.
    Dirty,
}

/// What stands in a place of a cache.
#[derive(Clone, Copy)]
pub(crate) struct Entry {
    pub held: Held,
    pub mark: Mark,
}

// By hand: `Held` has ghost fields, and no Default is derived for such a struct.
impl Default for Entry {
    fn default() -> Entry {
        Entry {
            held: hold(0, &[0; PAGE_SIZE]),
            mark: Mark::Clean,
        }
    }
}

pub(crate) fn hold(page: u32, bytes: &[u8; PAGE_SIZE]) -> Held
    ensures is_that_page { result.page ≡ page }
    ensures has_its_bytes { result.bytes ≡ bytes.now }
{
    // By a call, since it is of slices that all bytes are known to fit.
    let mut copy = [0; PAGE_SIZE];
    copy.copy_from_slice(bytes);
    Held { page, bytes: copy }
}
