ghost use Rattle.std.specs.Prelude.{◌≡◌, ℕ, ◌<◌, ◌≤◌, true, false, ◌&&◌, List, [], ◌∷◌, ◌++◌, length, position, ◌==◌, slice_index_or, slice_set};
ghost use Rattle.refusals.specs.Refusals.{answer_of};
ghost use Rattle.page_store.specs.Meanings.{Sound, count_of, Live, page_at, with_page, done, read_answer, write_answer, after_read, after_write};
ghost use Rattle.cache.specs.declared.held.Held.{Held as HeldPage};
ghost use Rattle.cache.specs.declared.held.Entry.{Entry};
ghost use Rattle.cache.specs.Holding.{put_in, holds, all_apart, same_meaning, Spares};
ghost use Rattle.cache.specs.Caching.{held_in, cache_meaning, cache_settled};

use crate::Cache;
use crate::held::{Entry, Held, Mark, hold};
use arrayvec::ArrayVec;
use page_store::{PAGE_SIZE, PageStore, reach};
use refusals::Refusal;

// Whether the store has these very bytes in a page.
fn stands_in<S: PageStore>(store: &mut S, held: &Held) -> bool
    ensures keeps_the_meaning { S.meaning store.new ≡ S.meaning store.old }
    ensures has_it { result ≡ true → page_at (S.meaning store.old) held.now.page ≡ Live held.now.bytes }
{
    let mut found = [0; PAGE_SIZE];
    store.read(held.page, &mut found).is_ok() && found == held.bytes
}

// Brings a page into the store. A clean one is written only if the store has other bytes.
fn bring_down<S: PageStore>(store: &mut S, entry: &Entry)
    ensures stands_there { S.meaning store.new ≡ with_page (S.meaning store.old) entry.now.held.page entry.now.held.bytes }
{
    let held = &entry.held;
    if entry.mark == Mark::Dirty || !stands_in(store, held) {
        let _ = store.write(held.page, &held.bytes);
    }
}

impl<S: PageStore> Cache<S> {
    /// A cache over this store that holds nothing yet.
    #[tactic(auto, using(crate::proofs::Holdings::same_as_itself))]
    pub fn over(below: S) -> Cache<S>
        ensures lies_over_it { result.below ≡ below }
        ensures holds_nothing { held_in result ≡ [] }
        ensures means_what_it_means { cache_meaning S.meaning result ≡ S.meaning below }
        ensures is_as_settled { cache_settled S.meaning S.settled result ≡ S.settled below }
    {
        Cache {
            below,
            held: ArrayVec::new(),
            turn: 0,
        }
    }

    /// The store back, settled, with all that the cache held in it.
    pub fn into_below(self) -> S
        ensures means_what_the_cache_meant { S.meaning result ≡ cache_meaning S.meaning self }
        ensures is_settled { S.settled result ≡ true }
    {
        let mut cache = self;
        cache.settle();
        let Cache {
            below,
            held: _,
            turn: _,
        } = cache;
        below
    }

    // The place that holds a page.
    fn place(&self, page: u32) -> Option<usize>
        ensures is_the_first { result ≡ position (λ (entry : Entry). entry.held.page == page) self.now.held.items }
    {
        self.held.iter().position(|entry| entry.held.page == page)
    }

    // A page into a place that is used.
    fn put(&mut self, place: usize, held: Held)
        requires is_used { place < length (held_in self.old) }
        requires is_held_nowhere_else { all_apart (slice_set (held_in self.old) place held) ≡ true }
        ensures holds_it_there { held_in self.new ≡ slice_set (held_in self.old) place held }
        ensures keeps_the_store_below { self.new.below ≡ self.old.below }
    {
        // By its parts: an entry made first would be copied once more.
        let entry = &mut self.held[place];
        entry.held = held;
        entry.mark = Mark::Dirty;
    }

    // A page into a free place.
    fn add(&mut self, held: Held, mark: Mark)
        requires has_room { length (held_in self.old) < 4 }
        requires is_not_held { holds (held_in self.old) held.page ≡ false }
        ensures holds_it_too { held_in self.new ≡ held_in self.old ++ (held ∷ []) }
        ensures keeps_the_store_below { self.new.below ≡ self.old.below }
    {
        self.held.push(Entry { held, mark });
    }

    // The store below means by itself what the cache means, after it.
    fn bring_all_down(&mut self)
        ensures keeps_the_meaning { cache_meaning S.meaning self.new ≡ cache_meaning S.meaning self.old }
        ensures leaves_the_store_below_the_same { S.meaning self.new.below ≡ cache_meaning S.meaning self.old }
    {
        for entry in self.held.iter_mut() {
            bring_down(&mut self.below, entry);
            entry.mark = Mark::Clean;
        }
    }

    // A page that is not held: it takes a free place or, in turn, that of another, which is brought down first.
    fn take_in(&mut self, new: Held)
        requires is_not_held { holds (held_in self.old) new.page ≡ false }
        ensures means_that_page { cache_meaning S.meaning self.new ≡ with_page (cache_meaning S.meaning self.old) new.page new.bytes }
        ensures holds_it { holds (held_in self.new) new.page ≡ true }
        ensures spares_the_store_below { Spares (held_in self.old) new.page (S.meaning self.old.below) (S.meaning self.new.below) }
    {
        if self.held.is_full() {
            let oldest = self.turn;
            bring_down(&mut self.below, &self.held[oldest]);
            self.put(oldest, new);
            self.turn = (oldest + 1) % 4;
        } else {
            self.add(new, Mark::Dirty);
        }
    }
}

impl<S: PageStore> PageStore for Cache<S> {
    ghost meaning = { λ s. cache_meaning S.meaning s };

    ghost settled = { λ s. cache_settled S.meaning S.settled s };

    fn count(&self) -> u32 {
        self.below.count()
    }

    fn read(&mut self, page: u32, buffer: &mut [u8]) -> Result<(), Refusal>
        ensures answers_by_the_meaning { answer_of result ≡ read_answer (cache_meaning S.meaning self.old) page (length buffer.old) }
        ensures keeps_the_meaning { cache_meaning S.meaning self.new ≡ cache_meaning S.meaning self.old }
        ensures fills_the_buffer { buffer.new ≡ after_read (cache_meaning S.meaning self.old) page buffer.old }
        ensures keeps_the_store_below { S.meaning self.new.below ≡ S.meaning self.old.below }
    {
        reach(self.below.count(), page, buffer.len())?;
        match self.place(page) {
            Some(place) => {
                let held = self.held[place].held;
                buffer.copy_from_slice(&held.bytes);
            }
            None => {
                self.below.read(page, buffer)?;
                if !self.held.is_full() {
                    self.add(hold(page, buffer.as_array().unwrap()), Mark::Clean);
                }
            }
        }
        Ok(())
    }

    // Inlined: a page is then written into its place with no copy of it in between.
    #[inline]
    fn write(&mut self, page: u32, buffer: &[u8]) -> Result<(), Refusal>
        ensures answers_by_the_meaning { answer_of result ≡ write_answer (cache_meaning S.meaning self.old) page (length buffer.now) }
        ensures changes_that_page { cache_meaning S.meaning self.new ≡ after_write (cache_meaning S.meaning self.old) page buffer.now }
        ensures leaves_its_page_held { answer_of result ≡ done → holds (held_in self.new) page ≡ true }
        ensures spares_the_store_below { Spares (held_in self.old) page (S.meaning self.old.below) (S.meaning self.new.below) }
    {
        reach(self.below.count(), page, buffer.len())?;
        let new = hold(page, buffer.as_array().unwrap());
        match self.place(page) {
            Some(place) => self.put(place, new),
            None => self.take_in(new),
        }
        Ok(())
    }

    #[tactic(auto, using(crate::proofs::Holdings::same_as_itself))]
    fn settle(&mut self)
        ensures keeps_the_meaning { cache_meaning S.meaning self.new ≡ cache_meaning S.meaning self.old }
        ensures is_settled { cache_settled S.meaning S.settled self.new ≡ true }
        ensures leaves_the_store_below_the_same { S.meaning self.new.below ≡ cache_meaning S.meaning self.old }
    {
        self.bring_all_down();
        self.below.settle();
    }
}
