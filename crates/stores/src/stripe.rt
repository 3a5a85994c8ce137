ghost use Rattle.std.specs.Prelude.{◌≡◌, ℕ, true, ◌&&◌, length};
ghost use Rattle.refusals.specs.Refusals.{answer_of};
ghost use Rattle.page_store.specs.Meanings.{Sound, read_answer, write_answer, after_read, after_write, count_of};
ghost use Rattle.stores.specs.Stripes.{meaning_over, first_written, second_written, renamed};

use page_store::{MOST_PAGES, PageStore, reach};
use refusals::Refusal;

/// Two stores as one: an even page n is page n / 2 of the first, an odd one page (n − 1) / 2 of the second.
#[derive(Drop)]
pub struct Stripe<A, B> {
    first: A,
    second: B,
}

impl<A, B> Stripe<A, B> {
    /// A stripe over two stores of any make and length.
    pub fn over(first: A, second: B) -> Stripe<A, B>
        ensures is_over_the_first { result.first ≡ first }
        ensures is_over_the_second { result.second ≡ second }
    {
        Stripe { first, second }
    }

    /// The two stores back.
    pub fn into_halves(self) -> (A, B)
        ensures are_the_halves { (result.0 ≡ self.first) × (result.1 ≡ self.second) }
    {
        let Stripe { first, second } = self;
        (first, second)
    }
}

impl<A: PageStore, B: PageStore> PageStore for Stripe<A, B> {
    ghost meaning = { λ s. meaning_over A.meaning B.meaning s };

    ghost settled = { λ s. A.settled s.first && B.settled s.second };

    fn count(&self) -> u32 {
        let shorter = self.first.count().min(self.second.count());
        (2 * shorter).min(MOST_PAGES)
    }

    fn read(&mut self, page: u32, buffer: &mut [u8]) -> Result<(), Refusal>
        ensures answers_by_the_meaning { answer_of result ≡ read_answer (meaning_over A.meaning B.meaning self.old) page (length buffer.old) }
        ensures keeps_the_meaning { meaning_over A.meaning B.meaning self.new ≡ meaning_over A.meaning B.meaning self.old }
        ensures fills_the_buffer { buffer.new ≡ after_read (meaning_over A.meaning B.meaning self.old) page buffer.old }
        ensures keeps_the_first { A.meaning self.new.first ≡ A.meaning self.old.first }
        ensures keeps_the_second { B.meaning self.new.second ≡ B.meaning self.old.second }
    {
        reach(self.count(), page, buffer.len())?;
        let answer = if page % 2 == 0 {
            self.first.read(page / 2, buffer)
        } else {
            self.second.read(page / 2, buffer)
        };
        answer.map_err(|_| Refusal::Lost(page))
    }

    fn write(&mut self, page: u32, buffer: &[u8]) -> Result<(), Refusal>
        ensures answers_by_the_meaning { answer_of result ≡ write_answer (meaning_over A.meaning B.meaning self.old) page (length buffer.now) }
        ensures changes_that_page { meaning_over A.meaning B.meaning self.new ≡ after_write (meaning_over A.meaning B.meaning self.old) page buffer.now }
        ensures changes_the_first_at_even_pages { A.meaning self.new.first ≡ first_written (A.meaning self.old.first) (B.meaning self.old.second) page buffer.now }
        ensures changes_the_second_at_odd_pages { B.meaning self.new.second ≡ second_written (A.meaning self.old.first) (B.meaning self.old.second) page buffer.now }
    {
        reach(self.count(), page, buffer.len())?;
        // Each half by its own branch: the two are of two types.
        if page % 2 == 0 {
            self.first.write(page / 2, buffer)
        } else {
            self.second.write(page / 2, buffer)
        }
    }

    fn settle(&mut self)
        ensures keeps_the_meaning { meaning_over A.meaning B.meaning self.new ≡ meaning_over A.meaning B.meaning self.old }
        ensures is_settled { (A.settled self.new.first && B.settled self.new.second) ≡ true }
        ensures keeps_the_first { A.meaning self.new.first ≡ A.meaning self.old.first }
        ensures keeps_the_second { B.meaning self.new.second ≡ B.meaning self.old.second }
    {
        self.first.settle();
        self.second.settle();
    }
}
