ghost use Rattle.std.specs.Prelude.{◌≡◌, true, ◌++◌, map, length, take, drop, vec_items};
ghost use Rattle.book.specs.Books.{value_at, Sorted};
ghost use Rattle.book.specs.Entries.{book_of, paged};
ghost use Rattle.book.specs.Looking.{lookup_answer, list_after_lookup};
ghost use Rattle.plain_book.specs.Accounts.{entry_in};
ghost use Rattle.plain_book.specs.Kept.{entries_in};
ghost use Rattle.plain_book.specs.Answers.{LookedAs, AccountIs};

use crate::account::Account;
use crate::failure::Failure;
use crate::kept::PlainBook;
use crate::looked::Looked;
use keys::{KeyKind, LawfulKey};
use refusals::Refusal;
use std::alloc::Global;
use std::marker::PhantomData;

// Writes as many of the new numbers as a list holds, and answers how many.
fn fill(list: &mut [u64], new: &[u64]) -> usize
    ensures written { result ≡ length (take (length list.old) new.now) }
    ensures after { list.new ≡ take (length list.old) new.now ++ drop result list.old }
{
    let count = list.len().min(new.len());
    list[..count].copy_from_slice(&new[..count]);
    count
}

impl PlainBook {
    /// Writes as many postings of a key, the newest first, as the list holds.
    pub fn lookup<K: KeyKind>(
        &self,
        heap: Global,
        key: &[u8],
        list: &mut [u64],
    ) -> Result<Looked, Failure>
        ensures looks_up_as_said { Sorted K.kind (entries_in self.now) → LookedAs (lookup_answer K.kind (book_of (entries_in self.now)) key.now (length list.old)) (list_after_lookup K.kind (book_of (entries_in self.now)) key.now list.old) list.old result list.new }
    {
        let Some(part) = K::check(key) else {
            return Err(Failure::Refuses(Refusal::Key(0)));
        };
        let key = LawfulKey::<K> {
            field: part,
            kind: PhantomData,
        };
        let postings = self.postings(heap, &key)?;
        let written = fill(list, postings.as_slice());
        Ok(Looked {
            total: postings.len(),
            written,
        })
    }

    /// The account of a key, if it has postings.
    pub fn account<K: KeyKind>(&self, key: &[u8]) -> Option<&Account>
        ensures is_the_entry_of_the_key { Sorted K.kind (entries_in self.now) → K.kind.lawful key.now ≡ true → AccountIs (value_at K.kind paged key.now (entries_in self.now)) result }
    {
        self.account_there(&LawfulKey::<K>::check(key)?)
    }
}

impl Account {
    /// The inline postings, the newest first.
    pub fn inline(&self) -> &[u64]
        ensures are_the_inline_postings { result.now ≡ (entry_in self.now).inline }
    {
        self.inline.as_slice()
    }

    /// The records, the head record first.
    pub fn records(&self) -> &[Vec<u64>]
        ensures are_the_records { map vec_items result.now ≡ (entry_in self.now).records }
    {
        self.records.as_slice()
    }
}
