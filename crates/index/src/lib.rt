//! The posting index over any page store and any key kind.
#![tactic(auto)]

ghost use Rattle.std.specs.Prelude.{◌≡◌, true, false, []};
ghost use Rattle.refusals.specs.Refusals.{answer_of, Accepted};
ghost use Rattle.calls.specs.declared.answers.Looked.{Looked as LookedUp};
ghost use Rattle.calls.specs.Making.{Makes};
ghost use Rattle.calls.specs.Lookups.{Looks};
ghost use Rattle.calls.specs.Settling.{Settles};
ghost use Rattle.calls.specs.Standing.{AcceptedBatches, Standing, ShowsTheCounted};
ghost use Rattle.index.specs.Indexes.{state_over};

use calls::answers::Looked;
use keys::KeyKind;
use page_store::PageStore;
use refusals::Refusal;
use std::marker::PhantomData;

/// An index over a page store, for keys of one kind. Beside its store it keeps only whether it is open.
#[derive(Drop)]
pub struct Index<S, K> {
    store: S,
    // Kept as a flag: calls on an index that is not open answer NOT OPEN, so both states have one type.
    open: bool,
    kind: PhantomData<K>,
}

impl<S: PageStore, K: KeyKind> Index<S, K> {
    /// An index over a store, not open yet.
    pub fn new(store: S) -> Index<S, K>
        ensures lies_over_the_store { result.store ≡ store }
        ensures is_not_open { result.«open» ≡ false }
    {
        Index {
            store,
            open: false,
            kind: PhantomData,
        }
    }

    /// Whether the index is open: a make was accepted.
    pub fn is_open(&self) -> bool
        ensures tells_the_openness { result ≡ self.now.«open» }
    {
        self.open
    }

    /// The store, taken out again.
    pub fn into_store(self) -> S
        ensures is_the_store { result ≡ self.store }
    {
        let Index {
            store,
            open: _,
            kind: _,
        } = self;
        store
    }

    /// Writes an empty tree over whatever stands on the pages, and opens the index.
    pub fn make(&mut self) -> Result<(), Refusal>
        ensures makes_an_empty_tree { Makes K.kind (state_over S.meaning S.settled self.old) (answer_of result) (state_over S.meaning S.settled self.new) }
        ensures stands_for_no_batches_yet { answer_of result ≡ Accepted tt → Standing K.kind [] (state_over S.meaning S.settled self.new) }
    {
        making::make::<S, K>(&mut self.store)?;
        self.open = true;
        Ok(())
    }

    /// Writes the first postings of a key into the list, as many as it has places.
    pub fn lookup(&mut self, key: &[u8], list: &mut [u64]) -> Result<Looked, Refusal>
        ensures looks_up { Looks K.kind (state_over S.meaning S.settled self.old) key.now list.old (answer_of result) (state_over S.meaning S.settled self.new) list.new }
        ensures shows_what_was_counted { (batches : AcceptedBatches) → Standing K.kind batches (state_over S.meaning S.settled self.old) → K.kind.lawful key.now ≡ true → (looked : LookedUp) × (answer_of result ≡ Accepted looked) × ShowsTheCounted K.kind batches key.now list.old looked list.new }
        ensures carries_on_what_stands { (batches : AcceptedBatches) → Standing K.kind batches (state_over S.meaning S.settled self.old) → Standing K.kind batches (state_over S.meaning S.settled self.new) }
    {
        if !self.open {
            return Err(Refusal::NotOpen);
        }
        lookups::lookup::<S, K>(&mut self.store, key, list)
    }

    /// Settles the store, open or not.
    pub fn settle(&mut self)
        ensures settles_the_store { Settles (state_over S.meaning S.settled self.old) (state_over S.meaning S.settled self.new) }
        ensures carries_on_what_stands { (batches : AcceptedBatches) → Standing K.kind batches (state_over S.meaning S.settled self.old) → Standing K.kind batches (state_over S.meaning S.settled self.new) }
    {
        self.store.settle();
    }
}
