ghost use Rattle.std.specs.Prelude.{◌≡◌, not};
ghost use Rattle.refusals.specs.Refusals.{answer_of};
ghost use Rattle.batches.specs.Reading.{kind_code, rows_in};
ghost use Rattle.book.specs.Merging.{lines_under, is_posting};
ghost use Rattle.book.specs.Laws.{no_cancelling};
ghost use Rattle.book_listing.specs.Text.{booklist_answer};
ghost use Rattle.book_listing.specs.Writing.{verdict, on_empty};

use batches::{Line, OpenBatch, Sign, check, check_kind_and_keys};
use keys::NarrationWord;
use refusals::Refusal;

/// The most bytes that are looked at.
const MOST: usize = 16384;

/// The free pages of a new index over 64 pages, and how many of them a posting line may take.
const FREE: u64 = 62;

const PAGES_PER_LINE: u64 = 7;

// The first line that cancels: a new index holds nothing to cancel.
fn refuse_cancelling(batch: &OpenBatch) -> Result<(), Refusal>
    ensures { answer_of result ≡ no_cancelling 0 (lines_under (rows_in batch.now.bytes.now)) }
{
    let cancels = |line: Line| -> bool
        ensures { result ≡ not (is_posting line.sign) }
    { line.sign == Sign::Cancelling };
    match batch.lines().position(cancels) {
        Some(j) => Err(Refusal::Absent(j as u32)),
        None => Ok(()),
    }
}

// An open batch against the empty book.
fn judge_batch(batch: &OpenBatch) -> Result<(), Refusal>
    ensures { answer_of result ≡ on_empty (kind_code batch.now.bytes.now) (rows_in batch.now.bytes.now) }
{
    check_kind_and_keys::<NarrationWord>(batch)?;
    refuse_cancelling(batch)?;
    if PAGES_PER_LINE * u64::from(batch.line_count()) > FREE {
        return Err(Refusal::NoPages);
    }
    Ok(())
}

/// What booklist answers to its input, accepted or refused. It leaves no batch open.
pub(crate) fn judge(input: &[u8]) -> Result<(), Refusal>
    ensures { answer_of result ≡ verdict (booklist_answer input.now) }
{
    if input.len() > MOST {
        return Err(Refusal::Form(3));
    }
    check(input)?;
    let batch = OpenBatch::make(input);
    let answer = judge_batch(&batch);
    batch.withdraw();
    answer
}
