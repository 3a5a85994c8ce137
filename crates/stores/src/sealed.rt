ghost use Rattle.std.specs.Prelude.{◌≡◌, ℕ, ◌+◌, ◌*◌, ◌<◌, length, MatchOption};
ghost use Rattle.page_store.specs.Meanings.{Live, Gone};
ghost use Rattle.stores.specs.Slots.{sealed_page, sealed_slot, seal};
ghost use Rattle.stores.specs.FormLaws.{sealed_is_a_form};

use crate::slotted::{Form, Slotted, copy_page};
use numbers::BigEndian;
use page_store::PAGE_SIZE;

/// The bytes of a page and its seal.
pub const SLOT_SIZE: usize = 516;

/// A slot that is a page and the four bytes of its seal.
#[derive(Drop)]
pub struct WithSeal;

/// Page n and its seal in the 516 bytes from 516 × n of its memory.
pub type Sealed = Slotted<WithSeal>;

// Byte i counts i + 1 times: at most 512 times 512 times 255, which fits.
// Kept as a loop: of the same chain's `sum` the proof that each partial sum fits does not close.
fn seal_of(page: &[u8; PAGE_SIZE]) -> u32
    ensures is_the_seal { result ≡ seal page.now }
{
    let mut sum = 0;
    for (i, byte) in page.iter().enumerate() {
        sum += (i as u32 + 1) * u32::from(*byte);
    }
    sum
}

impl Form for WithSeal {
    const WIDTH: usize = SLOT_SIZE;

    ghost WIDTH = { 516 };

    ghost page_of = { sealed_page };

    ghost slot_of = { sealed_slot };

    ghost laws = { sealed_is_a_form };

    fn page_in(slot: &[u8]) -> Option<&[u8; PAGE_SIZE]> {
        let page = slot.first_chunk()?;
        if u32::read_at(slot, PAGE_SIZE) != seal_of(page) {
            return None;
        }
        Some(page)
    }

    fn put_in(slot: &mut [u8], page: &[u8; PAGE_SIZE]) {
        if let Some(front) = slot.first_chunk_mut() {
            copy_page(page, front);
        }
        seal_of(page).write_at(slot, PAGE_SIZE);
    }
}
