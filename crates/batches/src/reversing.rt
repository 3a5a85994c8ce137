ghost use Rattle.std.specs.Prelude.{◌≡◌, ◌+◌, ◌*◌, ◌≤◌, true, length};
ghost use Rattle.refusals.specs.Refusals.{answer_of, on_accepted};
ghost use Rattle.batches.specs.Reading.{row_count, line_count};
ghost use Rattle.batches.specs.Opening.{open_answer, opens};
ghost use Rattle.batches.specs.Reversal.{other_byte, turned_from, reversal, Reverses};

use crate::checking::check;
use numbers::BigEndian;
use refusals::Refusal;

// Kept on bytes: three arms are plainer than a conversion to `Sign` that may fail, and back.
fn other_byte(sign: u8) -> u8
    ensures { result ≡ other_byte sign }
{
    match sign {
        b'+' => b'-',
        b'-' => b'+',
        other => other,
    }
}

// Exchanges the sign bytes of `count` lines from `at` on.
// By index: of what is written through `chunks_exact_mut` a proof knows the length alone.
fn exchange_signs(bytes: &mut [u8], at: usize, count: usize)
    requires { at + 9 * count ≤ length bytes.old }
    ensures { bytes.new ≡ turned_from at count bytes.old }
{
    for sign in (at..at + 9 * count).step_by(9) {
        bytes[sign] = other_byte(bytes[sign]);
    }
}

/// Turns a batch into its reversal, in place. Bytes that do not open are refused and left as they are.
#[tactic(auto, using(crate::proofs::Opened::rows_length, crate::proofs::Reversals::turned_is_reversal))]
pub fn reverse(bytes: &mut [u8]) -> Result<(), Refusal>
    ensures refused_as_opening_refuses { answer_of result ≡ open_answer bytes.old }
    ensures exchanges_the_signs_or_leaves_the_bytes { bytes.new ≡ on_accepted (open_answer bytes.old) (reversal bytes.old) bytes.old }
    ensures opens_again_with_signs_exchanged_and_twice_reversed_is_itself { opens bytes.old ≡ true → Reverses bytes.old (reversal bytes.old) }
{
    check(bytes)?;
    let lines = 16 + 32 * u32::read_at(bytes, 8) as usize;
    let count = u32::read_at(bytes, 12) as usize;
    exchange_signs(bytes, lines, count);
    Ok(())
}
