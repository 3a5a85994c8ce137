//! Kind 2: an account and a day.

ghost use Rattle.std.specs.Prelude.{◌≡◌, ◌≤◌, length};
ghost use Rattle.keys.specs.AccountDays.{account_of, day_of, account_day_zeros};
ghost use Rattle.keys.specs.BuiltIn.{account_day_kind};

use crate::KeyKind;
use crate::bytes::are_zeros;
use numbers::BigEndian;
use std::cmp::Ordering;

/// The account that stands in front.
fn account(field: &[u8]) -> u32
    ensures is_the_account { result ≡ account_of field.now }
{
    u32::read_at(field, 0)
}

/// The signed day behind the account.
fn day(field: &[u8]) -> i32
    ensures is_the_day { result ≡ day_of field.now }
{
    u32::read_at(field, 4).cast_signed()
}

/// Whether an account of at least 1 stands in front, and only zeros from byte 8 on.
#[tactic(auto, unfolding(crate::specs::AccountDays::account_day_zeros))]
fn are_account_day_zeros(field: &[u8]) -> bool
    requires reaches_byte_8 { 8 ≤ length field.now }
    ensures tells_both { result ≡ account_day_zeros field.now }
{
    account(field) >= 1 && are_zeros(&field[8..])
}

/// An account of at least 1, a signed day and 16 zeros, by account and then by day.
#[derive(Clone, Copy)]
pub struct AccountAndDay;

impl KeyKind for AccountAndDay {
    const CODE: u8 = 2;

    ghost kind = { account_day_kind };

    fn kind_code() -> u8 {
        Self::CODE
    }

    fn check(field: &[u8]) -> Option<&[u8]> {
        (field.len() == 24 && are_account_day_zeros(field)).then_some(field)
    }

    fn compare(a: &[u8], b: &[u8]) -> Ordering {
        (account(a), day(a)).cmp(&(account(b), day(b)))
    }
}
