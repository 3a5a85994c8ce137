ghost use Rattle.std.specs.Prelude.{◌≡◌, ℕ, ◌+◌, ◌*◌, ◌<◌, ◌≤◌, true, List, length, MatchOption};
ghost use Rattle.refusals.specs.Refusals.{answer_of};
ghost use Rattle.page_store.specs.Meanings.{Page, Live, Gone, Sound, count_of, read_answer, write_answer, after_read, after_write};
ghost use Rattle.stores.specs.Slots.{IsForm, slot_count, slots_meaning, slots_written};
ghost use Rattle.stores.specs.Memories.{memory_of, holds_nothing_back};

use page_store::{MOST_PAGES, PAGE_SIZE, PageStore, reach};
use refusals::Refusal;
use std::marker::PhantomData;

/// How a slot of a memory holds a page.
pub trait Form {
    const WIDTH: usize;

    ghost WIDTH: { ℕ };

    ghost page_of: { List ℕ → Page };

    ghost slot_of: { List ℕ → List ℕ };

    /// The page that a slot holds, unless it is lost.
    fn page_in(slot: &[u8]) -> Option<&[u8; PAGE_SIZE]>
        ensures is_the_page { length slot.now ≡ WIDTH → MatchOption result (page_of slot.now ≡ Gone) (λ page. page_of slot.now ≡ Live page.now) };

    /// Fills a slot with a page.
    fn put_in(slot: &mut [u8], page: &[u8; PAGE_SIZE])
        ensures is_the_slot { length slot.old ≡ WIDTH → slot.new ≡ slot_of page.now };

    ghost laws: { IsForm WIDTH page_of slot_of };
}

/// Page n in the slot from WIDTH × n of its memory.
#[derive(Drop)]
pub struct Slotted<F> {
    memory: Vec<u8>,
    form: PhantomData<F>,
}

impl<F> Slotted<F> {
    /// A store on this memory, whatever it holds.
    pub fn over(memory: Vec<u8>) -> Slotted<F>
        ensures keeps_the_memory { memory_of result ≡ memory.items }
    {
        Slotted {
            memory,
            form: PhantomData,
        }
    }

    /// The memory back.
    pub fn into_memory(self) -> Vec<u8>
        ensures is_the_memory { result.items ≡ memory_of self }
    {
        let Slotted { memory, form: _ } = self;
        memory
    }
}

// One page over another; it knows nothing but the page.
pub(crate) fn copy_page(from: &[u8; PAGE_SIZE], to: &mut [u8; PAGE_SIZE])
    ensures is_copied { to.new ≡ from.now }
{
    *to = *from;
}

// Where the slot of a page that is there begins.
fn slot_start<F: Form>(page: u32, len: usize) -> usize
    requires is_there { page < slot_count F.WIDTH len }
    ensures is_its_start { result ≡ F.WIDTH * page }
    ensures leaves_room_for_it { result + F.WIDTH ≤ len }
{
    F::WIDTH * page as usize
}

// How many pages a memory has.
fn count_slots<F: Form>(memory: &[u8]) -> u32
    ensures is_the_count { result ≡ count_of (slots_meaning F.WIDTH F.page_of memory.now) }
    ensures means_sound_pages { Sound (slots_meaning F.WIDTH F.page_of memory.now) }
    ensures counts_whole_slots { result ≡ slot_count F.WIDTH (length memory.now) }
{
    (memory.len() / F::WIDTH).min(MOST_PAGES as usize) as u32
}

// Hands the slot's part of the memory to the form, and the page in it on.
fn read_slot<F: Form>(memory: &[u8], page: u32, buffer: &mut [u8]) -> Result<(), Refusal>
    ensures answers_by_the_meaning { answer_of result ≡ read_answer (slots_meaning F.WIDTH F.page_of memory.now) page (length buffer.old) }
    ensures fills_the_buffer { buffer.new ≡ after_read (slots_meaning F.WIDTH F.page_of memory.now) page buffer.old }
{
    reach(count_slots::<F>(memory), page, buffer.len())?;
    let from = slot_start::<F>(page, memory.len());
    let Some(found) = F::page_in(&memory[from..from + F::WIDTH]) else {
        return Err(Refusal::Lost(page));
    };
    copy_page(found, buffer.as_mut_array().unwrap());
    Ok(())
}

fn write_slot<F: Form>(memory: &mut [u8], page: u32, buffer: &[u8]) -> Result<(), Refusal>
    ensures answers_by_the_meaning { answer_of result ≡ write_answer (slots_meaning F.WIDTH F.page_of memory.old) page (length buffer.now) }
    ensures changes_that_page { slots_meaning F.WIDTH F.page_of memory.new ≡ after_write (slots_meaning F.WIDTH F.page_of memory.old) page buffer.now }
    ensures changes_that_slot { memory.new ≡ slots_written F.WIDTH F.page_of F.slot_of memory.old page buffer.now }
{
    reach(count_slots::<F>(memory), page, buffer.len())?;
    let at = slot_start::<F>(page, memory.len());
    F::put_in(&mut memory[at..at + F::WIDTH], buffer.as_array().unwrap());
    Ok(())
}

// The same for memory that is owned.
fn write_owned<F: Form>(memory: &mut Vec<u8>, page: u32, buffer: &[u8]) -> Result<(), Refusal>
    ensures answers_by_the_meaning { answer_of result ≡ write_answer (slots_meaning F.WIDTH F.page_of memory.old.items) page (length buffer.now) }
    ensures changes_that_page { slots_meaning F.WIDTH F.page_of memory.new.items ≡ after_write (slots_meaning F.WIDTH F.page_of memory.old.items) page buffer.now }
    ensures changes_that_slot { memory.new.items ≡ slots_written F.WIDTH F.page_of F.slot_of memory.old.items page buffer.now }
{
    write_slot::<F>(memory, page, buffer)
}

impl<F: Form> PageStore for Slotted<F> {
    ghost meaning = { λ s. slots_meaning F.WIDTH F.page_of (memory_of s) };

    ghost settled = { λ s. holds_nothing_back s };

    fn count(&self) -> u32
        ensures is_the_count { result ≡ count_of (slots_meaning F.WIDTH F.page_of (memory_of self.now)) }
        ensures means_sound_pages { Sound (slots_meaning F.WIDTH F.page_of (memory_of self.now)) }
        ensures counts_whole_slots { result ≡ slot_count F.WIDTH (length (memory_of self.now)) }
    {
        count_slots::<F>(&self.memory)
    }

    fn read(&mut self, page: u32, buffer: &mut [u8]) -> Result<(), Refusal>
        ensures answers_by_the_meaning { answer_of result ≡ read_answer (slots_meaning F.WIDTH F.page_of (memory_of self.old)) page (length buffer.old) }
        ensures keeps_the_meaning { slots_meaning F.WIDTH F.page_of (memory_of self.new) ≡ slots_meaning F.WIDTH F.page_of (memory_of self.old) }
        ensures fills_the_buffer { buffer.new ≡ after_read (slots_meaning F.WIDTH F.page_of (memory_of self.old)) page buffer.old }
        ensures keeps_the_memory { memory_of self.new ≡ memory_of self.old }
    {
        read_slot::<F>(&self.memory, page, buffer)
    }

    fn write(&mut self, page: u32, buffer: &[u8]) -> Result<(), Refusal>
        ensures answers_by_the_meaning { answer_of result ≡ write_answer (slots_meaning F.WIDTH F.page_of (memory_of self.old)) page (length buffer.now) }
        ensures changes_that_page { slots_meaning F.WIDTH F.page_of (memory_of self.new) ≡ after_write (slots_meaning F.WIDTH F.page_of (memory_of self.old)) page buffer.now }
        ensures changes_that_slot { memory_of self.new ≡ slots_written F.WIDTH F.page_of F.slot_of (memory_of self.old) page buffer.now }
    {
        write_owned::<F>(&mut self.memory, page, buffer)
    }

    fn settle(&mut self)
        ensures keeps_the_meaning { slots_meaning F.WIDTH F.page_of (memory_of self.new) ≡ slots_meaning F.WIDTH F.page_of (memory_of self.old) }
        ensures is_settled { holds_nothing_back self.new ≡ true }
        ensures keeps_the_memory { memory_of self.new ≡ memory_of self.old }
    {}
}
