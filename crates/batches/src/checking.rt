ghost use Rattle.std.specs.Prelude.{◌≡◌, ℕ, ◌+◌, ◌*◌, ◌<◌, ◌≤◌, true, map, length, drop, Some, None, Decides, if◌then◌else◌};
ghost use Rattle.refusals.specs.Refusals.{answer_of, is_accepted};
ghost use Rattle.batches.specs.Layout.{HasLayout};
ghost use Rattle.batches.specs.Reading.{row_count, line_count, pieces, content_of, contents_in, cell_of, line_of, cells_in};
ghost use Rattle.batches.specs.Opening.{has_letters, counts_fit, length_fits, follow, has_sign, row_answer, lines_answer, open_answer};

use crate::line::{Line, Sign};
use numbers::BigEndian;
use refusals::Refusal;

const LETTERS: &[u8] = b"BTCH";

/// The most rows, and the most lines, of a batch.
const MOST: u32 = 1024;

/// Posting numbers lie below this.
const BEYOND: u64 = 1 << 63;

// Step 1.
fn has_letters(bytes: &[u8]) -> bool
    ensures { result ≡ has_letters bytes.now }
{
    bytes.len() >= 16 && &bytes[0..4] == LETTERS
}

// Step 2.
fn counts_fit(bytes: &[u8]) -> bool
    requires { 16 ≤ length bytes.now }
    ensures { result ≡ counts_fit bytes.now }
{
    bytes[5..8] == [0, 0, 0] && u32::read_at(bytes, 8) <= MOST && u32::read_at(bytes, 12) <= MOST
}

// Step 3.
fn length_fits(bytes: &[u8]) -> bool
    requires { counts_fit bytes.now ≡ true }
    ensures { result ≡ length_fits bytes.now }
{
    bytes.len() == 16 + 32 * u32::read_at(bytes, 8) as usize + 9 * u32::read_at(bytes, 12) as usize
}

// So many pieces of one width from `at` on.
#[tactic(auto, using(crate::proofs::Pieces::chunks_of_front))]
fn pieces<const WIDTH: usize>(bytes: &[u8], at: usize, count: u32) -> &[[u8; WIDTH]]
    requires has_a_width { 0 < WIDTH }
    requires stand_there { at + count * WIDTH ≤ length bytes.now }
    ensures { result.now ≡ pieces WIDTH count (drop at bytes.now) }
{
    let (pieces, _) = bytes[at..at + count as usize * WIDTH].as_chunks::<WIDTH>();
    pieces
}

// The rows as they stand, 32 bytes each.
#[tactic(auto, using(crate::proofs::Pieces::length_pieces), unfolding(crate::specs::Reading::contents_in))]
pub(crate) fn rows(bytes: &[u8]) -> &[[u8; 32]]
    requires { length_fits bytes.now ≡ true }
    ensures are_the_contents { map content_of result.now ≡ contents_in bytes.now }
    ensures counted { length result.now ≡ row_count bytes.now }
{
    pieces::<32>(bytes, 16, u32::read_at(bytes, 8))
}

// The lines as they stand, nine bytes each.
#[tactic(auto, using(crate::proofs::Pieces::length_pieces), unfolding(crate::specs::Reading::cells_in))]
pub(crate) fn lines(bytes: &[u8]) -> &[[u8; 9]]
    requires { length_fits bytes.now ≡ true }
    ensures are_the_cells { map cell_of result.now ≡ cells_in bytes.now }
    ensures counted { length result.now ≡ line_count bytes.now }
{
    let at = 16 + 32 * u32::read_at(bytes, 8) as usize;
    pieces::<9>(bytes, at, u32::read_at(bytes, 12))
}

// Step 4, of a batch with so many lines.
fn rows_follow(rows: &[[u8; 32]], lines: usize) -> bool
    requires { length rows.now ≤ 1024 }
    ensures { result ≡ follow 0 (map content_of rows.now) lines }
{
    let mut next = 0;
    for row in rows {
        let count = u32::read_at(row, 28) as usize;
        if count == 0 || u32::read_at(row, 24) as usize != next {
            return false;
        }
        next += count;
    }
    next == lines
}

/// A line from its nine bytes, a sign byte and then the posting number; nothing where the byte is no sign.
#[tactic(auto, using(crate::proofs::Cells::number_there))]
pub(crate) fn read_line(piece: &[u8; 9]) -> Option<Line>
    ensures { result ≡ (if has_sign (cell_of piece.now) then Some (line_of (cell_of piece.now)) else None) }
{
    match &piece[..] {
        [b'+', number @ ..] => Some(Line {
            sign: Sign::Posting,
            number: u64::read_front(number),
        }),
        [b'-', number @ ..] => Some(Line {
            sign: Sign::Cancelling,
            number: u64::read_front(number),
        }),
        _ => None,
    }
}

// The first bad line of a row, whose first line has the number `first`.
fn check_row_lines(first: u32, lines: &[[u8; 9]]) -> Result<(), Refusal>
    requires { first + length lines.now ≤ 1024 }
    ensures { answer_of result ≡ row_answer first 0 (map cell_of lines.now) }
{
    let mut low = 0u64;
    for (i, piece) in lines.iter().enumerate() {
        let j = first + i as u32;
        let line = read_line(piece).ok_or(Refusal::Line(j))?;
        if line.number <= low || line.number >= BEYOND {
            return Err(Refusal::Line(j));
        }
        low = line.number;
    }
    Ok(())
}

// The first bad line of the rows.
#[tactic(auto, using(crate::proofs::Steps::row_ends))]
fn check_lines(rows: &[[u8; 32]], lines: &[[u8; 9]]) -> Result<(), Refusal>
    requires few { length lines.now ≤ 1024 }
    requires follow_one_another { follow 0 (map content_of rows.now) (length lines.now) ≡ true }
    ensures { answer_of result ≡ lines_answer 0 (map content_of rows.now) (map cell_of lines.now) }
{
    let mut first = 0;
    let mut left = lines;
    for row in rows {
        let count = u32::read_at(row, 28);
        let (own, others) = left.split_at(count as usize);
        check_row_lines(first, own)?;
        first += count;
        left = others;
    }
    Ok(())
}

// The first step of the form that fails, else the first bad line.
#[tactic(auto, unfolding(crate::specs::Opening::open_answer))]
fn first_fault(bytes: &[u8]) -> Result<(), Refusal>
    ensures { answer_of result ≡ open_answer bytes.now }
{
    if !has_letters(bytes) {
        return Err(Refusal::Form(1));
    }
    if !counts_fit(bytes) {
        return Err(Refusal::Form(2));
    }
    if !length_fits(bytes) {
        return Err(Refusal::Form(3));
    }
    let rows = rows(bytes);
    let lines = lines(bytes);
    if !rows_follow(rows, lines.len()) {
        return Err(Refusal::Form(4));
    }
    check_lines(rows, lines)
}

/// Whether the bytes are a batch file. It changes nothing, and looks neither at keys nor at the kind.
pub fn check(bytes: &[u8]) -> Result<(), Refusal>
    ensures refused_at_the_first_failing_step_or_line { answer_of result ≡ open_answer bytes.now }
    ensures accepted_exactly_if_it_has_the_layout { Decides (is_accepted (answer_of result)) (HasLayout bytes.now) }
{
    first_fault(bytes)
}
