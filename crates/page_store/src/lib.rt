//! The page store: numbered pages of 512 bytes, each of them readable or lost.
#![tactic(auto)]

ghost use Rattle.std.specs.Prelude.{◌≡◌, ℕ, ◌<◌, Bool, true, length, OnOk};
ghost use Rattle.refusals.specs.Refusals.{answer_of};
ghost use Rattle.page_store.specs.Meanings.{Meaning, Sound, count_of, done, reached, read_answer, write_answer, after_read, after_write};

use refusals::Refusal;

/// The bytes of a page.
pub const PAGE_SIZE: usize = 512;

/// The most pages that a store has.
pub const MOST_PAGES: u32 = 65536;

/// A store of pages. What it owes stands in these clauses, over what it means and whether it is settled.
pub trait PageStore {
    ghost meaning: { Self → Meaning };

    ghost settled: { Self → Bool };

    /// How many pages the store has.
    fn count(&self) -> u32
        ensures is_the_count { result ≡ count_of (meaning self.now) }
        ensures means_sound_pages { Sound (meaning self.now) };

    /// Fills the buffer with a page, unless buffer, number or page are refused.
    fn read(&mut self, page: u32, buffer: &mut [u8]) -> Result<(), Refusal>
        ensures answers_by_the_meaning { answer_of result ≡ read_answer (meaning self.old) page (length buffer.old) }
        ensures keeps_the_meaning { meaning self.new ≡ meaning self.old }
        ensures fills_the_buffer { buffer.new ≡ after_read (meaning self.old) page buffer.old };

    /// Gives a page new bytes, unless buffer or number are refused. A lost page is lost no more.
    fn write(&mut self, page: u32, buffer: &[u8]) -> Result<(), Refusal>
        ensures answers_by_the_meaning { answer_of result ≡ write_answer (meaning self.old) page (length buffer.now) }
        ensures changes_that_page { meaning self.new ≡ after_write (meaning self.old) page buffer.now };

    /// Writes down what the store holds back.
    fn settle(&mut self)
        ensures keeps_the_meaning { meaning self.new ≡ meaning self.old }
        ensures is_settled { settled self.new ≡ true };
}

/// Whether a call reaches a page at all, for makers of stores: a buffer of one page, then a number below the count.
pub fn reach(count: u32, page: u32, len: usize) -> Result<(), Refusal>
    ensures looks_at_the_buffer_first { answer_of result ≡ reached count page len done }
    ensures accepts_only_a_page_that_is_there { OnOk result ((len ≡ 512) × (page < count)) }
{
    if len != PAGE_SIZE {
        return Err(Refusal::Buffer(len));
    }
    if page >= count {
        return Err(Refusal::Page(page));
    }
    Ok(())
}
