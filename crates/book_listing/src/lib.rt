//! The text of booklist: one batch of narration words merged into a new index over 64 pages, and all of it listed.
#![tactic(auto)]

ghost use Rattle.std.specs.Prelude.{◌≡◌, true, length, if◌then◌else◌, nat_le};
ghost use Rattle.refusals.specs.Refusals.{Accepted, answer_of, wants, and_then};
ghost use Rattle.book_listing.specs.Text.{booklist_text, filled};
ghost use Rattle.book_listing.specs.Whole.{ListsAll};
ghost use Rattle.book_listing.specs.Worked.{WorkedTexts};

use listing::text_of;
use refusals::Refusal;

mod judging;
mod listing;
mod writing;

/// The least buffer: a first line of 4 bytes, and 8 rows of 24 letters, a space, 19 figures and the end of the line.
pub const ROOM: usize = 364;

/// Writes what booklist prints for an input, and answers the number of bytes.
pub fn booklist(input: &[u8], out: &mut [u8]) -> Result<usize, Refusal>
    ensures wants_364_bytes_then_answers_how_many_were_written { answer_of result ≡ and_then (wants (nat_le 364 (length out.old)) 13 (length out.old)) (Accepted (length (booklist_text input.now))) }
    ensures writes_the_text_or_nothing { out.new ≡ (if nat_le 364 (length out.old) then filled (booklist_text input.now) out.old else out.old) }
{
    if out.len() < ROOM {
        return Err(Refusal::Buffer(out.len()));
    }
    let text = text_of(input);
    let bytes = text.bytes();
    out[..bytes.len()].copy_from_slice(bytes);
    Ok(bytes.len())
}

/// Small inputs, worked out by the definitions.
pub fn worked_texts_hold() -> bool
    ensures is_true { result ≡ true }
    ensures worked_texts { WorkedTexts }
{
    let texts_come_out = true;
    texts_come_out
}

/// The rows that are printed are the listing from the lowest word to the highest.
pub fn texts_list_all() -> bool
    ensures is_true { result ≡ true }
    ensures all_rows_are_the_listing_of_all_words { ListsAll }
{
    let all_is_listed = true;
    all_is_listed
}
