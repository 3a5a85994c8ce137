ghost use Rattle.std.specs.Prelude.{◌≡◌, true, [], length};
ghost use Rattle.batches.specs.Reading.{rows_in, kind_code};
ghost use Rattle.book.specs.Books.{value_at};
ghost use Rattle.book.specs.Merging.{merge_answer};
ghost use Rattle.book.specs.Entries.{book_of, paged};
ghost use Rattle.book.specs.Looking.{lookup_answer, list_after_lookup, list_answer, buffer_after_list};
ghost use Rattle.plain_book.specs.Answers.{MergedAs, LookedAs, ListedAs, AccountIs};

use crate::account::Account;
use crate::failure::Failure;
use crate::kept::PlainBook;
use crate::looked::{Listing, Looked};
use batches::OpenBatch;
use keys::KeyKind;
use std::alloc::Global;
use std::marker::{Model, PhantomData};

/// A book in memory over keys of one kind: they rise by it, so no call has to name it or to suppose that.
#[derive(Drop)]
pub struct BookOf<K: KeyKind> {
    book: PlainBook,
    of: PhantomData<K>,
}

impl<K: KeyKind> Model for BookOf<K> {
    ghost use Rattle.book.specs.Books.{Sorted};
    ghost use Rattle.book.specs.Entries.{Entries};
    ghost use Rattle.plain_book.specs.Kept.{entries_in};

    ghost Value = { Entries };

    ghost view = { λ typed. entries_in typed.book };

    ghost invariant = { λ typed. Sorted K.kind (entries_in typed.book) };
}

impl<K: KeyKind> BookOf<K> {
    /// A book without postings.
    pub fn new(heap: Global) -> BookOf<K>
        ensures is_empty { result ≡ [] }
    {
        BookOf {
            book: PlainBook::new(heap),
            of: PhantomData,
        }
    }

    /// Merges an open batch, as if so many pages were free, and leaves the batch open: answers the number of keys.
    pub fn merge(&mut self, heap: Global, free: usize, batch: &OpenBatch) -> Result<usize, Failure>
        ensures merges_as_said_of_entries { MergedAs (merge_answer K.kind paged free (kind_code batch.now.bytes.now) (rows_in batch.now.bytes.now) self.old) self.old result self.new }
    {
        self.book.merge::<K>(heap, free, batch)
    }

    /// Writes as many postings of a key, the newest first, as the list holds.
    pub fn lookup(&self, heap: Global, key: &[u8], list: &mut [u64]) -> Result<Looked, Failure>
        ensures looks_up_as_said { LookedAs (lookup_answer K.kind (book_of self.now) key.now (length list.old)) (list_after_lookup K.kind (book_of self.now) key.now list.old) list.old result list.new }
    {
        self.book.lookup::<K>(heap, key, list)
    }

    /// Writes the postings of the keys from the first to the second as rows of 32 bytes.
    pub fn list(
        &self,
        heap: Global,
        first: &[u8],
        second: &[u8],
        skip: usize,
        buffer: &mut [u8],
    ) -> Result<Listing, Failure>
        ensures lists_as_said { ListedAs (list_answer K.kind (book_of self.now) first.now second.now skip (length buffer.old)) (buffer_after_list K.kind (book_of self.now) first.now second.now skip buffer.old) buffer.old result buffer.new }
    {
        self.book.list::<K>(heap, first, second, skip, buffer)
    }

    /// The account of a key, if it has postings.
    pub fn account(&self, key: &[u8]) -> Option<&Account>
        ensures is_the_entry_of_the_key { K.kind.lawful key.now ≡ true → AccountIs (value_at K.kind paged key.now self.now) result }
    {
        self.book.account::<K>(key)
    }
}
