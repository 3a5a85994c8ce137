ghost use Rattle.std.specs.Prelude.{◌≡◌, ◌+◌, ◌^◌, ◌<◌, ◌≤◌, [], ◌∷◌, length};
ghost use Rattle.numbers.specs.BigEndian.{Bytes, written, part};
ghost use Rattle.nodes.specs.Sorts.{sort_number};
ghost use Rattle.nodes.specs.Layout.{padded, front_bytes};

use crate::sizes::{KEY_SIZE, PAGE_SIZE};
use crate::sort::PageSort;
use numbers::BigEndian;

/// Bytes over those from `at` on.
pub(crate) fn put(page: &mut [u8], at: usize, bytes: &[u8])
    requires within { at + length bytes.now ≤ length page.old }
    ensures are_written { page.new ≡ written page.old at bytes.now }
    ensures are_bytes { Bytes bytes.now }
{
    page[at..at + bytes.len()].copy_from_slice(bytes);
}

/// The 24 bytes of a key field.
pub(crate) fn key_at(bytes: &[u8], at: usize) -> [u8; KEY_SIZE]
    requires within { at + 24 ≤ length bytes.now }
    ensures is_the_field_there { result ≡ part at 24 bytes.now }
    ensures has_24_bytes { length result ≡ 24 }
{
    let mut key = [0; KEY_SIZE];
    key.copy_from_slice(&bytes[at..at + KEY_SIZE]);
    key
}

/// A page that is zeros past its first two bytes.
pub(crate) fn begun(sort: PageSort, second: u8) -> [u8; PAGE_SIZE]
    ensures is_begun { result ≡ padded 512 (sort_number sort ∷ second ∷ []) }
    ensures has_512_bytes { length result ≡ 512 }
    ensures fits { second < 2 ^ 8 }
{
    let mut page = [0; PAGE_SIZE];
    put(&mut page, 0, &[u8::from(sort), second]);
    page
}

/// A page that is zeros past what stands in front of rows, entries and postings.
pub(crate) fn fronted(sort: PageSort, count: u16, next: u32) -> [u8; PAGE_SIZE]
    ensures is_fronted { result ≡ padded 512 (front_bytes sort count next) }
    ensures has_512_bytes { length result ≡ 512 }
    ensures fits { next < 2 ^ 32 }
{
    let mut page = begun(sort, 0);
    count.write_at(&mut page, 2);
    next.write_at(&mut page, 4);
    page
}
