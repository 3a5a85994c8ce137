ghost use Rattle.std.specs.Prelude.{◌≡◌, ◌+◌, ◌≤◌, ◌++◌, length};
ghost use Rattle.batches.specs.Reading.{rows_in};
ghost use Rattle.batches.specs.Rows.{row_read};
ghost use Rattle.book_listing.specs.Text.{booklist_text};
ghost use Rattle.book_listing.specs.Writing.{postings_text, batch_text};

use crate::judging::judge;
use crate::writing::{Text, word_of};
use batches::{OpenBatch, OpenRow};

// The rows of the listing that a row of a batch gives: its last line first.
fn put_postings(row: &OpenRow, text: &mut Text)
    requires { length text.old + length (postings_text (row_read row.now)) ≤ 364 }
    ensures { text.new ≡ text.old ++ postings_text (row_read row.now) }
{
    let word = word_of(row.key);
    for line in row.lines().rev() {
        text.line(word, line.number);
    }
}

// The listing of a batch of postings.
#[tactic(auto, unfolding(crate::specs::Writing::batch_text))]
fn batch_text(batch: &OpenBatch) -> Text
    requires { length (batch_text (rows_in batch.now.bytes.now)) ≤ 364 }
    ensures { result ≡ batch_text (rows_in batch.now.bytes.now) }
{
    let mut text = Text::new();
    text.numbers(0, u64::from(batch.line_count()));
    for row in batch.rows() {
        put_postings(&row, &mut text);
    }
    text
}

/// The text of an input.
pub(crate) fn text_of(input: &[u8]) -> Text
    ensures { result ≡ booklist_text input.now }
{
    match judge(input) {
        Ok(()) => {
            let batch = OpenBatch::make(input);
            let text = batch_text(&batch);
            batch.withdraw();
            text
        }
        Err(refusal) => {
            let mut text = Text::new();
            text.numbers(u64::from(refusal.number()), refusal.place() as u64);
            text
        }
    }
}
