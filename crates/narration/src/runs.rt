//! Runs of bytes of one sort.

ghost use Rattle.std.specs.Prelude.{◌≡◌, ℕ, ◌<◌, ◌≤◌, not, List, length, slice_index};
ghost use Rattle.narration.specs.Letters.{in_word, fixed_table};
ghost use Rattle.narration.specs.Turns.{Turn};
ghost use Rattle.narration.specs.Tokens.{TokenAt};

use crate::Token;
use crate::table::in_word;

/// The place after the longest run, from a place on, of bytes of one sort.
// One function for both sorts: `word` says of which sort the run is, and picks no step.
fn run_end(bytes: &[u8], from: usize, word: bool) -> usize
    requires is_within { from ≤ length bytes.now }
    ensures is_after { from ≤ result }
    ensures is_within { result ≤ length bytes.now }
    ensures all_of_its_sort { (k : ℕ) → from ≤ k → k < result → in_word fixed_table (slice_index bytes.now k) ≡ word }
    ensures then_the_other { result < length bytes.now → in_word fixed_table (slice_index bytes.now result) ≡ not word }
{
    let run = bytes[from..]
        .iter()
        .take_while(|byte| in_word(**byte) == word);
    from + run.count()
}

/// The word or gap that begins at a place.
pub(crate) fn token_at<'a>(narration: &'a [u8], place: usize) -> Option<Token<'a>>
    requires is_within { place ≤ length narration.now }
    requires is_at_a_turn { Turn fixed_table narration.now place }
    ensures is_the_longest_run_there { TokenAt fixed_table narration.now place result }
{
    let first = narration.get(place)?;
    let word = in_word(*first);
    let end = run_end(narration, place, word);
    let part = &narration[place..end];
    Some(if word {
        Token::Word { part, place }
    } else {
        Token::Gap { part, place }
    })
}
