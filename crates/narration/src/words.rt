//! Words and their keys.

ghost use Rattle.std.specs.Prelude.{◌≡◌, ◌<◌, true, if◌then◌else◌, Some, None, map, slice_index};
ghost use Rattle.keys.specs.BuiltIn.{word_kind};
ghost use Rattle.narration.specs.Letters.{mapped, is_a_word, all_in_word, key_of, fixed_table};
ghost use Rattle.narration.specs.Tokens.{WordsHaveKeys};

use crate::table::{in_word, letter};
use std::array;

/// Whether each byte belongs to a word.
fn are_in_word(bytes: &[u8]) -> bool
    ensures tells_words { result ≡ all_in_word fixed_table bytes.now }
{
    bytes.iter().all(|b| in_word(*b))
}

/// The letter at a place of a word, and 0 behind its end.
fn letter_at(word: &[u8], place: usize) -> u8
    ensures is_the_letter_there { result ≡ slice_index (map (mapped fixed_table) word.now) place }
{
    word.get(place).map_or(0, |b| letter(*b))
}

/// The first 24 letters of a word, then zeros.
fn first_letters(word: &[u8]) -> [u8; 24]
    ensures is_the_key { result ≡ key_of fixed_table word.now }
{
    array::from_fn(|place| letter_at(word, place))
}

/// The key of a word is a lawful field of kind 1. Calling this does nothing: its caller knows the fact where it answers a key.
fn key_is_lawful(word: &[u8])
    requires is_a_word { is_a_word fixed_table word.now ≡ true }
    ensures holds { word_kind.lawful (key_of fixed_table word.now) ≡ true }
{}

/// Words that a reader hands out have keys. Calling this does nothing: it tells the fact once for both ways out of its caller.
pub(crate) fn words_have_keys()
    ensures holds { WordsHaveKeys fixed_table }
{}

/// The key of a word, and nothing for bytes that are no word.
pub(crate) fn word_key(word: &[u8]) -> Option<[u8; 24]>
    ensures is_the_key_of_a_word { result ≡ (if is_a_word fixed_table word.now then Some (key_of fixed_table word.now) else None) }
    ensures is_lawful_for_words { elim result [ Some key ↦ word_kind.lawful key ≡ true | None ↦ Unit {0} ] }
{
    if !word.is_empty() && are_in_word(word) {
        key_is_lawful(word);
        return Some(first_letters(word));
    }
    None
}
