ghost use Rattle.std.specs.Prelude.{◌≡◌, ℕ, length, MatchOption};
ghost use Rattle.page_store.specs.Meanings.{Live, Gone};
ghost use Rattle.stores.specs.FormLaws.{bare_is_a_form};

use crate::slotted::{Form, Slotted, copy_page};
use page_store::PAGE_SIZE;

/// A slot that is a page and nothing else.
#[derive(Drop)]
pub struct Bare;

/// Page n in the 512 bytes from 512 × n of its memory.
pub type Flat = Slotted<Bare>;

impl Form for Bare {
    const WIDTH: usize = PAGE_SIZE;

    ghost WIDTH = { 512 };

    ghost page_of = { Live };

    ghost slot_of = { λ page. page };

    ghost laws = { bare_is_a_form };

    fn page_in(slot: &[u8]) -> Option<&[u8; PAGE_SIZE]> {
        slot.as_array()
    }

    fn put_in(slot: &mut [u8], page: &[u8; PAGE_SIZE]) {
        if let Some(whole) = slot.as_mut_array() {
            copy_page(page, whole);
        }
    }
}
