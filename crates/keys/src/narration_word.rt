//! Kind 1: words of a narration.

ghost use Rattle.std.specs.Prelude.{◌≡◌};
ghost use Rattle.keys.specs.Words.{letters_then_zeros};
ghost use Rattle.keys.specs.BuiltIn.{word_kind};

use crate::KeyKind;
use crate::bytes::{are_zeros, letters};
use std::cmp::Ordering;

/// Whether at least one letter, then only zeros stand there.
#[tactic(auto, unfolding(crate::specs::Words::letters_then_zeros))]
fn are_letters_then_zeros(field: &[u8]) -> bool
    ensures tells_both { result ≡ letters_then_zeros field.now }
{
    let count = letters(field);
    count > 0 && are_zeros(&field[count..])
}

/// 1 to 24 bytes out of a to z and 0 to 9, then zeros, in the order of the bytes.
#[derive(Clone, Copy)]
pub struct NarrationWord;

impl KeyKind for NarrationWord {
    const CODE: u8 = 1;

    ghost kind = { word_kind };

    fn kind_code() -> u8 {
        Self::CODE
    }

    fn check(field: &[u8]) -> Option<&[u8]> {
        (field.len() == 24 && are_letters_then_zeros(field)).then_some(field)
    }

    fn compare(a: &[u8], b: &[u8]) -> Ordering {
        a.cmp(&b)
    }
}
