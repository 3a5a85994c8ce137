ghost use Rattle.std.specs.Prelude.{◌≡◌, List, map, vec_items, IfOk, OnOk};
ghost use Rattle.book.specs.Books.{has, without};
ghost use Rattle.book.specs.Merging.{applied};
ghost use Rattle.book.specs.Entries.{moved, posted_in, without_in, cancelled_in, is_empty, postings_in, paged};
ghost use Rattle.plain_book.specs.Accounts.{entry_in, held_in};
ghost use Rattle.plain_book.specs.Places.{lower};

use crate::position::{position, record_with, stands_in, stands_in_any};
use batches::{Line, Sign};
use keys::{KeyKind, LawfulKey, is_below};
use std::alloc::{AllocError, Global};
use std::mem;

/// The most postings of a head record that can take three more.
const ROOM_FOR_THREE: usize = 57;

/// A key and what stands under it: inline postings, the newest, and records of older ones.
#[derive(Drop)]
pub struct Account {
    pub(crate) key: Vec<u8>,
    pub(crate) inline: Vec<u64>,
    pub(crate) records: Vec<Vec<u64>>,
}

impl Account {
    // A key without postings.
    pub(crate) fn bare(heap: Global, key: &[u8]) -> Result<Account, AllocError>
        ensures { IfOk result (λ a. held_in a ≡ record { key = key.entry.now; value = paged.none }) }
    {
        let key = Vec::from_slice(heap, key)?;
        Ok(Account {
            key,
            inline: Vec::new(heap),
            records: Vec::new(heap),
        })
    }

    // After a line.
    pub(crate) fn taken(self, heap: Global, line: Line) -> Result<Account, AllocError>
        ensures { IfOk result (λ a. held_in a ≡ record { key = self.key.items; value = applied paged line.sign line.number (entry_in self) }) }
    {
        match line.sign {
            Sign::Posting => self.posted(heap, line.number),
            Sign::Cancelling => Ok(self.cancelled(line.number)),
        }
    }

    // With a posting in front.
    fn posted(mut self, heap: Global, n: u64) -> Result<Account, AllocError>
        ensures { IfOk result (λ a. held_in a ≡ record { key = self.key.items; value = posted_in n (entry_in self) }) }
    {
        if self.inline.len() < 3 {
            self.inline.insert(0, n)?;
            return Ok(self);
        }
        let three = mem::replace(&mut self.inline, vec![in heap; n]?);
        move_back(three, &mut self.records)?;
        Ok(self)
    }

    // With a posting taken out.
    fn cancelled(mut self, n: u64) -> Account
        ensures { held_in result ≡ record { key = self.key.items; value = cancelled_in n (entry_in self) } }
    {
        if stands_in(self.inline.as_slice(), n) {
            take(&mut self.inline, n);
        } else {
            take_out(&mut self.records, n);
        }
        self
    }

    // Whether its key is lawful and lies below a lawful one.
    pub(crate) fn lies_below<K: KeyKind>(&self, key: &LawfulKey<K>) -> bool
        ensures { result ≡ lower K.kind self.now.key.items key.now.field.now }
    {
        is_below::<K>(self.key.as_slice(), key.field) == Some(true)
    }

    // Whether a number is among the postings.
    pub(crate) fn holds(&self, n: u64) -> bool
        ensures { result ≡ has n (postings_in (entry_in self.now)) }
    {
        stands_in(self.inline.as_slice(), n) || stands_in_any(self.records.as_slice(), n)
    }

    pub(crate) fn is_empty(&self) -> bool
        ensures { result ≡ is_empty (entry_in self.now) }
    {
        self.inline.is_empty() && self.records.is_empty()
    }

    // All postings, the newest first.
    pub(crate) fn postings(&self, heap: Global) -> Result<Vec<u64>, AllocError>
        ensures { IfOk result (λ v. v.items ≡ postings_in (entry_in self.now)) }
    {
        let mut all = Vec::from_slice(heap, self.inline.as_slice())?;
        for record in self.records.iter() {
            all.extend_from_slice(record.as_slice())?;
        }
        Ok(all)
    }
}

// Postings moved out of the inline places: in front of the head record if that has room, else as a new one.
fn move_back(mut three: Vec<u64>, records: &mut Vec<Vec<u64>>) -> Result<(), AllocError>
    ensures { OnOk result (map vec_items records.new.items ≡ moved three.items (map vec_items records.old.items)) }
{
    if let Some(head) = records.first()
        && head.len() <= ROOM_FOR_THREE
    {
        let head = records.remove(0);
        three.extend_from_slice(head.as_slice())?;
    }
    records.insert(0, three)?;
    Ok(())
}

// Takes a number out of a list.
fn take(list: &mut Vec<u64>, n: u64)
    ensures { list.new.items ≡ without n list.old.items }
{
    if let Some(at) = position(list.as_slice(), n) {
        list.remove(at);
    }
}

// Takes a number out of the record that has it; an emptied record goes.
fn take_out(records: &mut Vec<Vec<u64>>, n: u64)
    ensures { map vec_items records.new.items ≡ without_in n (map vec_items records.old.items) }
{
    if let Some(at) = record_with(records.as_slice(), n) {
        take(&mut records[at], n);
        if records[at].is_empty() {
            records.remove(at);
        }
    }
}
