//! An example of a maker's own key kind, to copy from: vouchers by branch and number.
#![tactic(auto)]

ghost use Rattle.std.specs.Prelude.{◌≡◌, ◌≤◌, length};
ghost use Rattle.branch_kind.specs.Vouchers.{branch_of, voucher_of, capitals, voucher_zeros};
ghost use Rattle.branch_kind.specs.BranchKind.{branch_kind};

use keys::{KeyKind, are_zeros};
use numbers::BigEndian;
use std::cmp::Ordering;

/// The four letters of the branch, read as one number.
fn branch(field: &[u8]) -> u32
    ensures is_the_branch { result ≡ branch_of field.now }
{
    u32::read_at(field, 0)
}

/// The voucher number behind the branch.
fn number(field: &[u8]) -> u32
    ensures is_the_number { result ≡ voucher_of field.now }
{
    u32::read_at(field, 4)
}

/// Whether four capital letters stand in front.
fn is_branch(field: &[u8]) -> bool
    requires reaches_byte_8 { 8 ≤ length field.now }
    ensures tells_branches { result ≡ capitals field.now }
{
    field[..4].iter().all(|b| b.is_ascii_uppercase())
}

/// Whether a branch stands in front, and only zeros from byte 8 on.
#[tactic(auto, unfolding(crate::specs::Vouchers::voucher_zeros))]
fn is_voucher(field: &[u8]) -> bool
    requires reaches_byte_8 { 8 ≤ length field.now }
    ensures tells_vouchers { result ≡ voucher_zeros field.now }
{
    is_branch(field) && are_zeros(&field[8..])
}

/// A branch of four capital letters, a voucher number of four bytes and 16 zeros, by branch and then by number.
#[derive(Clone, Copy)]
pub struct BranchVoucher;

impl KeyKind for BranchVoucher {
    const CODE: u8 = 66;

    ghost kind = { branch_kind };

    fn kind_code() -> u8 {
        Self::CODE
    }

    fn check(field: &[u8]) -> Option<&[u8]> {
        (field.len() == 24 && is_voucher(field)).then_some(field)
    }

    fn compare(a: &[u8], b: &[u8]) -> Ordering {
        (branch(a), number(a)).cmp(&(branch(b), number(b)))
    }
}
