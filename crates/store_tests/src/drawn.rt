//! What follows from the contracts alone.

ghost use Rattle.std.specs.Prelude.{◌≡◌, ℕ, true};
ghost use Rattle.page_store.specs.Meanings.{after_write};
ghost use Rattle.stores.specs.Slots.{flat_meaning, flat_written, sealed_meaning, sealed_written};
ghost use Rattle.stores.specs.Memories.{flat_memory, sealed_memory, holds_nothing_back};
ghost use Rattle.cache.specs.Caching.{cache_settled};

use cache::Cache;
use page_store::PageStore;
use stores::flat::Flat;
use stores::sealed::Sealed;

/// A cache that was only read is as settled as what lies below.
pub fn only_read(memory: Vec<u8>, page: u32, buffer: &mut [u8]) -> Cache<Flat>
    ensures is_settled { cache_settled (λ s. flat_meaning (flat_memory s)) (λ s. holds_nothing_back s) result ≡ true }
{
    let mut cache = Cache::over(Flat::over(memory));
    let _ = cache.read(page, buffer);
    cache
}

/// A write through a cache that is then taken off leaves what a write without it leaves.
pub fn written_and_taken_off(memory: Vec<u8>, page: u32, buffer: &[u8]) -> Flat
    ensures means_the_same { flat_meaning (flat_memory result) ≡ after_write (flat_meaning memory.items) page buffer.now }
{
    let mut cache = Cache::over(Flat::over(memory));
    let _ = cache.write(page, buffer);
    cache.into_below()
}

/// The memory of a flat store after a write, in that store's own words, as that of a sealed one below.
pub fn flat_after_a_write(memory: Vec<u8>, page: u32, buffer: &[u8]) -> Vec<u8>
    ensures changes_that_slot { result.items ≡ flat_written memory.items page buffer.now }
    ensures changes_that_page { flat_meaning result.items ≡ after_write (flat_meaning memory.items) page buffer.now }
{
    let mut store = Flat::over(memory);
    let _ = store.write(page, buffer);
    store.into_memory()
}

/// The memory of a sealed store after a write.
pub fn sealed_after_a_write(memory: Vec<u8>, page: u32, buffer: &[u8]) -> Vec<u8>
    ensures changes_that_slot { result.items ≡ sealed_written memory.items page buffer.now }
    ensures changes_that_page { sealed_meaning result.items ≡ after_write (sealed_meaning memory.items) page buffer.now }
{
    let mut store = Sealed::over(memory);
    let _ = store.write(page, buffer);
    store.into_memory()
}

/// A sealed store after a read: its memory is as it was.
pub fn sealed_after_a_read(memory: Vec<u8>, page: u32, buffer: &mut [u8]) -> Sealed
    ensures keeps_the_memory { sealed_memory result ≡ memory.items }
{
    let mut sealed = Sealed::over(memory);
    let _ = sealed.read(page, buffer);
    sealed
}
