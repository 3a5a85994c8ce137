//! A maker's own page store, as an example: it lies over any other and counts the calls that it hands on.
#![tactic(auto)]

ghost use Rattle.std.specs.Prelude.{◌≡◌, true, ℕ, length};
ghost use Rattle.refusals.specs.Refusals.{answer_of};
ghost use Rattle.page_store.specs.Meanings.{read_answer, write_answer, after_read, after_write};
ghost use Rattle.counting_store.specs.Counts.{one_more};

use page_store::PageStore;
use refusals::Refusal;

/// A store that is lent to it, and how often it was read and written; both numbers stay at 2^64 − 1 once there.
#[derive(Drop)]
pub struct Counting<'a, S> {
    below: &'a mut S,
    reads: u64,
    writes: u64,
}

impl<'a, S> Counting<'a, S> {
    /// Counts from 0 on what this store is asked.
    pub fn over(below: &'a mut S) -> Counting<'a, S>
        ensures lies_over_it { result.below.now ≡ below.old }
        ensures counts_from_0 { (result.reads ≡ 0) × (result.writes ≡ 0) }
    {
        Counting {
            below,
            reads: 0,
            writes: 0,
        }
    }

    /// The reads and the writes so far.
    pub fn counts(&self) -> (u64, u64)
        ensures are_the_counts { (result.0 ≡ self.now.reads) × (result.1 ≡ self.now.writes) }
    {
        (self.reads, self.writes)
    }
}

impl<'a, S: PageStore> PageStore for Counting<'a, S> {
    ghost meaning = { λ s. S.meaning s.below.now };

    ghost settled = { λ s. S.settled s.below.now };

    fn count(&self) -> u32 {
        self.below.count()
    }

    fn read(&mut self, page: u32, buffer: &mut [u8]) -> Result<(), Refusal>
        ensures answers_by_the_meaning { answer_of result ≡ read_answer (S.meaning self.old.below.now) page (length buffer.old) }
        ensures keeps_the_meaning { S.meaning self.new.below.now ≡ S.meaning self.old.below.now }
        ensures fills_the_buffer { buffer.new ≡ after_read (S.meaning self.old.below.now) page buffer.old }
        ensures counts_a_read { (self.new.reads ≡ one_more self.old.reads) × (self.new.writes ≡ self.old.writes) }
    {
        self.reads = self.reads.saturating_add(1);
        self.below.read(page, buffer)
    }

    fn write(&mut self, page: u32, buffer: &[u8]) -> Result<(), Refusal>
        ensures answers_by_the_meaning { answer_of result ≡ write_answer (S.meaning self.old.below.now) page (length buffer.now) }
        ensures changes_that_page { S.meaning self.new.below.now ≡ after_write (S.meaning self.old.below.now) page buffer.now }
        ensures counts_a_write { (self.new.writes ≡ one_more self.old.writes) × (self.new.reads ≡ self.old.reads) }
    {
        self.writes = self.writes.saturating_add(1);
        self.below.write(page, buffer)
    }

    fn settle(&mut self)
        ensures keeps_the_meaning { S.meaning self.new.below.now ≡ S.meaning self.old.below.now }
        ensures is_settled { S.settled self.new.below.now ≡ true }
        ensures counts_nothing { (self.new.reads ≡ self.old.reads) × (self.new.writes ≡ self.old.writes) }
    {
        self.below.settle();
    }
}
