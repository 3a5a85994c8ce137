//! The letter of each byte.

ghost use Rattle.std.specs.Prelude.{◌≡◌};
ghost use Rattle.narration.specs.Letters.{mapped, in_word, fixed_table, TableAsSaid};

/// A to Z become a to z; a to z and 0 to 9 stay; others are 0.
// Written out, 0 where there is no letter: the rules ask for a fixed table of 256 bytes.
const TABLE: &[u8; 256] = b"\
    \0\0\0\0\0\0\0\0\0\0\0\0\0\0\0\0\
    \0\0\0\0\0\0\0\0\0\0\0\0\0\0\0\0\
    \0\0\0\0\0\0\0\0\0\0\0\0\0\0\0\0\
    0123456789\0\0\0\0\0\0\
    \0abcdefghijklmnopqrstuvwxyz\0\0\0\0\0\
    \0abcdefghijklmnopqrstuvwxyz\0\0\0\0\0\
    \0\0\0\0\0\0\0\0\0\0\0\0\0\0\0\0\
    \0\0\0\0\0\0\0\0\0\0\0\0\0\0\0\0\
    \0\0\0\0\0\0\0\0\0\0\0\0\0\0\0\0\
    \0\0\0\0\0\0\0\0\0\0\0\0\0\0\0\0\
    \0\0\0\0\0\0\0\0\0\0\0\0\0\0\0\0\
    \0\0\0\0\0\0\0\0\0\0\0\0\0\0\0\0\
    \0\0\0\0\0\0\0\0\0\0\0\0\0\0\0\0\
    \0\0\0\0\0\0\0\0\0\0\0\0\0\0\0\0";

/// The letter that a byte stands for in a word, or 0.
pub fn letter(b: u8) -> u8
    ensures is_in_the_table { result ≡ mapped fixed_table b }
    ensures the_table_is_as_said { TableAsSaid }
{
    TABLE[b as usize]
}

/// Whether a byte belongs to a word.
pub(crate) fn in_word(byte: u8) -> bool
    ensures tells_letters { result ≡ in_word fixed_table byte }
{
    letter(byte) != 0
}
