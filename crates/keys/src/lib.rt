//! Key kinds: which fields of 24 bytes are keys, and how two keys compare.
#![tactic(auto)]

ghost use Rattle.std.specs.Prelude.{◌≡◌, true, ◌&&◌, if◌then◌else◌, Some, None, Decides};
ghost use Rattle.refusals.specs.Refusals.{answer_of, Accepted, Refused};
ghost use Rattle.keys.specs.Kinds.{Field, Kind, below};
ghost use Rattle.keys.specs.Words.{Word};
ghost use Rattle.keys.specs.AccountDays.{AccountDay, HoldsEveryAccountAndDay};
ghost use Rattle.keys.specs.BuiltIn.{word_kind, account_day_kind};
ghost use Rattle.keys.specs.AsSaid.{WordsByFirstDifference, AccountsThenDays};
ghost use Rattle.keys.specs.Worked.{WorkedComparisons};
ghost use Rattle.keys.specs.Ranks.{RanksTell};

use laws::ranks_tell_the_order;
use refusals::Refusal;
use std::cmp::Ordering;

mod account_and_day;
mod bytes;
mod lawful_key;
mod laws;
mod narration_word;

pub use account_and_day::AccountAndDay;
pub use bytes::are_zeros;
pub use lawful_key::LawfulKey;
pub use narration_word::NarrationWord;

/// A kind of key. What it owes stands in `Kind`: its code, its lawful fields, its order and the laws.
pub trait KeyKind {
    /// The code of the kind, as batches and headers carry it.
    const CODE: u8;

    ghost kind: { Kind };

    /// The code, as generic code compares it: each kind answers its constant.
    // A number and no enum: makers have kinds of their own, of which a law over the constant would ask more.
    fn kind_code() -> u8
        ensures is_the_code { result ≡ kind.code };

    /// The caller's own bytes where they are a lawful field, else nothing.
    // Each kind has its own body, a line over its own test.
    fn check(field: &[u8]) -> Option<&[u8]>
        ensures is_the_field_if_lawful { result ≡ (if kind.lawful field.now then Some field.entry else None) };

    /// How two lawful fields compare.
    fn compare(a: &[u8], b: &[u8]) -> Ordering
        requires first_is_lawful { kind.lawful a.now ≡ true }
        requires second_is_lawful { kind.lawful b.now ≡ true }
        ensures is_the_order { result ≡ kind.order a.now b.now };
}

/// The caller's own bytes where they are a lawful field, else KEY with the place that the caller names.
pub fn lawful_field<'a, K: KeyKind>(field: &'a [u8], place: u32) -> Result<&'a [u8], Refusal>
    ensures is_the_field_or_key_refused { answer_of result ≡ (if K.kind.lawful field.now then Accepted field.entry else Refused 4 place) }
{
    K::check(field).ok_or(Refusal::Key(place))
}

/// Whether the first field lies below the second; nothing where one of them is unlawful.
pub fn is_below<K: KeyKind>(a: &[u8], b: &[u8]) -> Option<bool>
    ensures is_the_order_of_lawful_fields { result ≡ (if K.kind.lawful a.now && K.kind.lawful b.now then Some (below K.kind a.now b.now) else None) }
    ensures the_order_is_that_of_ranks { RanksTell K.kind }
{
    ranks_tell_the_order::<K>();
    let first = LawfulKey::<K>::check(a)?;
    let second = LawfulKey::<K>::check(b)?;
    Some(first.is_below(&second))
}

/// Answers yes: the codes are 1 and 2. Its contract says which fields the two kinds call lawful and how they order them.
pub fn kinds_are_as_said() -> bool
    ensures codes_are_1_and_2 { result ≡ true }
    ensures kind_1_is_exactly_words { (f : Field) → Decides (word_kind.lawful f) (Word f) }
    ensures kind_1_goes_by_the_first_difference { WordsByFirstDifference }
    ensures kind_2_is_exactly_accounts_and_days { (f : Field) → Decides (account_day_kind.lawful f) (AccountDay f) }
    ensures kind_2_holds_every_account_and_day { HoldsEveryAccountAndDay }
    ensures kind_2_goes_by_account_and_then_by_day { AccountsThenDays }
    ensures worked_comparisons_come_out { WorkedComparisons }
{
    (NarrationWord::kind_code(), AccountAndDay::kind_code()) == (1, 2)
}
