ghost use Rattle.std.specs.Prelude.{◌≡◌, ◌+◌, ◌≤◌, true, OnOk};
ghost use Rattle.refusals.specs.Refusals.{answer_of};
ghost use Rattle.batches.specs.Reading.{rows_in, kind_code};
ghost use Rattle.batches.specs.Opening.{opens};
ghost use Rattle.batches.specs.Rows.{row_read};
ghost use Rattle.book.specs.Books.{Sorted};
ghost use Rattle.book.specs.Merging.{bookings_of, lines_under, posting_lines, pages_answer, standing, lines_answer, lines_taken, check_answer, merge_answer, RowsRise};
ghost use Rattle.book.specs.Entries.{paged};
ghost use Rattle.plain_book.specs.Kept.{entries_in};
ghost use Rattle.plain_book.specs.Lines.{LawfulKeys};
ghost use Rattle.plain_book.specs.Answers.{MergedAs};

use crate::failure::Failure;
use crate::kept::PlainBook;
use batches::{OpenBatch, OpenRow, Sign, check_kind_and_keys};
use keys::{KeyKind, LawfulKey};
use refusals::Refusal;
use std::alloc::{AllocError, Global};
use std::marker::PhantomData;

/// Free pages that a merge wants for each posting line.
const PAGES_FOR_A_LINE: usize = 7;

// The answer to a line, by whether its number is there: one match on both.
fn judged(sign: Sign, there: bool, at: u32) -> Result<(), Refusal>
    ensures { answer_of result ≡ standing sign there at }
{
    match (sign, there) {
        (Sign::Posting, true) => Err(Refusal::Stands(at)),
        (Sign::Cancelling, false) => Err(Refusal::Absent(at)),
        _ => Ok(()),
    }
}

// How many lines of a batch post.
fn posting_lines(batch: &OpenBatch) -> usize
    ensures are_counted { result ≡ posting_lines (lines_under (rows_in batch.now.bytes.now)) }
    ensures are_at_most_1024 { result ≤ 1024 }
{
    batch
        .lines()
        .filter(|line| line.sign == Sign::Posting)
        .count()
}

// Seven free pages for each posting line.
fn check_pages(free: usize, batch: &OpenBatch) -> Result<(), Refusal>
    ensures { answer_of result ≡ pages_answer free (posting_lines (lines_under (rows_in batch.now.bytes.now))) }
{
    if PAGES_FOR_A_LINE * posting_lines(batch) <= free {
        Ok(())
    } else {
        Err(Refusal::NoPages)
    }
}

// A fact of bytes that open, for the proof of a merge: numbers rise within each row. Calling it does nothing.
fn numbers_rise(bytes: &[u8])
    requires { opens bytes.now ≡ true }
    ensures { RowsRise (rows_in bytes.now) }
{}

impl PlainBook {
    // The first line of a row that does not fit the book as it stands.
    fn check_row<K: KeyKind>(&self, row: &OpenRow) -> Result<(), Refusal>
        requires key_is_lawful { K.kind.lawful row.now.key.now ≡ true }
        requires lines_are_few { row.now.first + row.now.count ≤ 1024 }
        ensures { Sorted K.kind (entries_in self.now) → answer_of result ≡ lines_answer K.kind paged row.now.first (bookings_of (row_read row.now)) (entries_in self.now) }
    {
        let key = LawfulKey::<K> {
            field: row.key,
            kind: PhantomData,
        };
        for (i, line) in row.lines().enumerate() {
            let there = self.stands(&key, line.number);
            judged(line.sign, there, row.first + i as u32)?;
        }
        Ok(())
    }

    // The first line that does not fit the book as it stands.
    fn check_lines<K: KeyKind>(&self, batch: &OpenBatch) -> Result<(), Refusal>
        requires { LawfulKeys K.kind (rows_in batch.now.bytes.now) }
        ensures { Sorted K.kind (entries_in self.now) → answer_of result ≡ lines_answer K.kind paged 0 (lines_under (rows_in batch.now.bytes.now)) (entries_in self.now) }
    {
        for row in batch.rows() {
            self.check_row::<K>(&row)?;
        }
        Ok(())
    }

    // All that a merge wants: kind and keys, then the lines, then pages.
    #[tactic(auto, unfolding(book::specs::Merging::check_answer))]
    fn check<K: KeyKind>(&self, free: usize, batch: &OpenBatch) -> Result<(), Refusal>
        ensures answers { Sorted K.kind (entries_in self.now) → answer_of result ≡ check_answer K.kind paged free (kind_code batch.now.bytes.now) (rows_in batch.now.bytes.now) (entries_in self.now) }
        ensures keys_are_lawful { OnOk result (LawfulKeys K.kind (rows_in batch.now.bytes.now)) }
    {
        check_kind_and_keys::<K>(batch)?;
        self.check_lines::<K>(batch)?;
        check_pages(free, batch)
    }

    // The lines of a row in order.
    fn take_row<K: KeyKind>(&mut self, heap: Global, row: &OpenRow) -> Result<(), AllocError>
        requires { K.kind.lawful row.now.key.now ≡ true }
        ensures taken { Sorted K.kind (entries_in self.old) → OnOk result (entries_in self.new ≡ lines_taken K.kind paged (bookings_of (row_read row.now)) (entries_in self.old)) }
        ensures rising { Sorted K.kind (entries_in self.old) → Sorted K.kind (entries_in self.new) }
    {
        let key = LawfulKey::<K> {
            field: row.key,
            kind: PhantomData,
        };
        for line in row.lines() {
            self.take_line(heap, &key, line)?;
        }
        Ok(())
    }

    // All lines in order.
    fn take_lines<K: KeyKind>(&mut self, heap: Global, batch: &OpenBatch) -> Result<(), AllocError>
        requires { LawfulKeys K.kind (rows_in batch.now.bytes.now) }
        ensures taken { Sorted K.kind (entries_in self.old) → OnOk result (entries_in self.new ≡ lines_taken K.kind paged (lines_under (rows_in batch.now.bytes.now)) (entries_in self.old)) }
        ensures rising { Sorted K.kind (entries_in self.old) → Sorted K.kind (entries_in self.new) }
    {
        for row in batch.rows() {
            self.take_row::<K>(heap, &row)?;
        }
        Ok(())
    }

    /// Merges an open batch, as if so many pages were free, and leaves the batch open: answers the number of keys.
    pub fn merge<K: KeyKind>(
        &mut self,
        heap: Global,
        free: usize,
        batch: &OpenBatch,
    ) -> Result<usize, Failure>
        ensures merges_as_said_of_entries { Sorted K.kind (entries_in self.old) → MergedAs (merge_answer K.kind paged free (kind_code batch.now.bytes.now) (rows_in batch.now.bytes.now) (entries_in self.old)) (entries_in self.old) result (entries_in self.new) }
        ensures keeps_the_keys_rising { Sorted K.kind (entries_in self.old) → Sorted K.kind (entries_in self.new) }
    {
        numbers_rise(batch.bytes());
        self.check::<K>(free, batch)?;
        self.take_lines::<K>(heap, batch)?;
        Ok(self.accounts.len())
    }
}
