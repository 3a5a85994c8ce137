//! The narration reader: words and gaps in turn, each a part of the narration with its place.
#![tactic(auto)]

ghost use Rattle.std.specs.Prelude.{◌≡◌, true, List, length, Some, None};
ghost use Rattle.std.specs.Iterator.{at_most};
ghost use Rattle.keys.specs.BuiltIn.{word_kind};
ghost use Rattle.narration.specs.Letters.{fixed_table};
ghost use Rattle.narration.specs.declared.Token.{Token};
ghost use Rattle.narration.specs.Tokens.{part_of, key_of_token, bytes_left, WordsHaveKeys, Reads, WholeRun, EveryRunIsWhole};

mod reader;
mod runs;
mod table;
mod words;

pub use reader::Reader;
use runs::token_at;
pub use table::letter;
use words::{word_key, words_have_keys};

/// A word or a gap, with the part of the narration that it covers and the place where that begins.
#[derive(Clone, Copy, PartialEq, Eq, Debug)]
pub enum Token<'a> {
    Word { part: &'a [u8], place: usize },
    Gap { part: &'a [u8], place: usize },
}

impl<'a> Token<'a> {
    /// The part of the narration that the token covers.
    pub fn part(&self) -> &'a [u8]
        ensures is_the_part { result.now ≡ part_of self.now }
    {
        match self {
            Token::Word { part, .. } => part,
            Token::Gap { part, .. } => part,
        }
    }

    /// The key of a word: its first 24 letters, then zeros. A gap has none, nor have bytes that are no word.
    pub fn key(&self) -> Option<[u8; 24]>
        ensures is_the_key_of_a_word { result ≡ key_of_token fixed_table self.now }
        ensures is_lawful_for_words { elim result [ Some key ↦ word_kind.lawful key ≡ true | None ↦ Unit {0} ] }
        ensures words_handed_out_have_keys { WordsHaveKeys fixed_table }
    {
        words_have_keys();
        match self {
            Token::Word { part, .. } => word_key(part),
            Token::Gap { .. } => None,
        }
    }
}

impl<'a> Reader<'a> {
    /// A reader at the start of a narration.
    pub fn new(narration: &'a [u8]) -> Reader<'a>
        ensures reads_the_narration { result.narration ≡ narration.entry }
        ensures is_at_the_start { result.place ≡ 0 }
    {
        Reader {
            narration,
            place: 0,
        }
    }
}

/// Hands out the words and gaps in turn.
impl<'a> Iterator for Reader<'a> {
    type Item = Token<'a>;

    // What `next` ensures: the longest run at the reader's place.
    ghost next_gives = { Reads fixed_table };

    ghost remaining = { λ reader. at_most (bytes_left reader) };

    /// The word or gap at the reader's place, which moves behind it; nothing exactly at the end.
    fn next(&mut self) -> Option<Token<'a>> {
        let token = token_at(self.narration, self.place)?;
        self.place += token.part().len();
        Some(token)
    }
}

/// How many words and gaps a narration has, read from its start to its end.
pub fn count_tokens(narration: &[u8]) -> usize
    ensures there_is_a_whole_run { (tokens : List Token) × WholeRun fixed_table narration.now tokens × (result ≡ length tokens) }
    ensures every_run_is_whole { EveryRunIsWhole fixed_table }
{
    Reader::new(narration).count()
}
