ghost use Rattle.std.specs.Prelude.{◌≡◌, ◌-◌, ◌*◌, ◌/◌, true, min, [], ◌∷◌, ◌++◌, length, take, drop, IfOk, OnOk};
ghost use Rattle.std.specs.List.{flat_map};
ghost use Rattle.book.specs.Books.{Sorted};
ghost use Rattle.book.specs.Entries.{book_of, postings_in};
ghost use Rattle.book.specs.Looking.{within, rows_under, listed, listed_bytes, list_answer, buffer_after_list};
ghost use Rattle.plain_book.specs.Accounts.{entry_in, held_in};
ghost use Rattle.plain_book.specs.Kept.{entries_in};
ghost use Rattle.plain_book.specs.Answers.{ListedAs};

use crate::account::Account;
use crate::failure::Failure;
use crate::kept::PlainBook;
use crate::looked::Listing;
use keys::{KeyKind, LawfulKey};
use refusals::Refusal;
use std::alloc::{AllocError, Global};
use std::marker::PhantomData;

/// The bytes of a row of a listing.
const ROW: usize = 32;

// Whether a key lies from the first to the second. Two keys and no range: that of the kernel is the listing crate's own.
fn is_within<K: KeyKind>(key: &LawfulKey<K>, first: &LawfulKey<K>, second: &LawfulKey<K>) -> bool
    ensures { result ≡ within K.kind first.now.field.now second.now.field.now key.now.field.now }
{
    !key.is_below(first) && !second.is_below(key)
}

// The rows of an account, behind those before.
fn add_rows(account: &Account, heap: Global, all: &mut Vec<u8>) -> Result<(), AllocError>
    ensures { OnOk result (all.new.items ≡ all.old.items ++ flat_map listed_bytes (rows_under (record { key = account.now.key.items; value = postings_in (entry_in account.now) }))) }
{
    let postings = account.postings(heap)?;
    for posting in postings.iter() {
        all.extend_from_slice(account.key.as_slice())?;
        all.extend_from_slice(&posting.to_be_bytes())?;
    }
    Ok(())
}

// The rows of an account if its key lies from the first to the second.
fn add_if_within<K: KeyKind>(
    account: &Account,
    heap: Global,
    first: &LawfulKey<K>,
    second: &LawfulKey<K>,
    all: &mut Vec<u8>,
) -> Result<(), AllocError>
    ensures { K.kind.lawful account.now.key.items ≡ true → OnOk result (all.new.items ≡ all.old.items ++ flat_map listed_bytes (listed K.kind (book_of (held_in account.now ∷ [])) first.now.field.now second.now.field.now)) }
{
    if let Some(key) = LawfulKey::<K>::check(account.key.as_slice())
        && is_within(&key, first, second)
    {
        return add_rows(account, heap, all);
    }
    Ok(())
}

// Skips rows and writes as many whole ones as fit.
fn show(rows: &[u8], skip: usize, buffer: &mut [u8]) -> Listing
    ensures total { result.total ≡ length rows.now / 32 }
    ensures rows { result.rows ≡ min (length rows.now / 32 - skip) (length buffer.old / 32) }
    ensures after { buffer.new ≡ take (32 * result.rows) (drop (32 * skip) rows.now) ++ drop (32 * result.rows) buffer.old }
{
    let total = rows.len() / ROW;
    let left = &rows[ROW * skip.min(total)..];
    let count = (left.len() / ROW).min(buffer.len() / ROW);
    buffer[..ROW * count].copy_from_slice(&left[..ROW * count]);
    Listing { total, rows: count }
}

impl PlainBook {
    // The bytes of all rows from one key to another.
    fn rows_between<K: KeyKind>(
        &self,
        heap: Global,
        first: &LawfulKey<K>,
        second: &LawfulKey<K>,
    ) -> Result<Vec<u8>, AllocError>
        ensures { Sorted K.kind (entries_in self.now) → IfOk result (λ v. v.items ≡ flat_map listed_bytes (listed K.kind (book_of (entries_in self.now)) first.now.field.now second.now.field.now)) }
    {
        let mut all = Vec::new(heap);
        for account in self.accounts.iter() {
            add_if_within(account, heap, first, second, &mut all)?;
        }
        Ok(all)
    }

    /// Writes the postings of the keys from the first to the second as rows of 32 bytes.
    pub fn list<K: KeyKind>(
        &self,
        heap: Global,
        first: &[u8],
        second: &[u8],
        skip: usize,
        buffer: &mut [u8],
    ) -> Result<Listing, Failure>
        ensures lists_as_said { Sorted K.kind (entries_in self.now) → ListedAs (list_answer K.kind (book_of (entries_in self.now)) first.now second.now skip (length buffer.old)) (buffer_after_list K.kind (book_of (entries_in self.now)) first.now second.now skip buffer.old) buffer.old result buffer.new }
    {
        let Some(low) = K::check(first) else {
            return Err(Failure::Refuses(Refusal::Key(0)));
        };
        let Some(high) = K::check(second) else {
            return Err(Failure::Refuses(Refusal::Key(1)));
        };
        let low = LawfulKey::<K> {
            field: low,
            kind: PhantomData,
        };
        let high = LawfulKey::<K> {
            field: high,
            kind: PhantomData,
        };
        let rows = self.rows_between(heap, &low, &high)?;
        Ok(show(rows.as_slice(), skip, buffer))
    }
}
