//! The postings of a key, found on the pages of any store.
#![tactic(auto)]

ghost use Rattle.std.specs.Prelude.{◌≡◌};
ghost use Rattle.refusals.specs.Refusals.{answer_of};
ghost use Rattle.calls.specs.Lookups.{LooksUp};

use calls::answers::Looked;
use finding::look_in_leaf;
use keys::{KeyKind, LawfulKey};
use page_store::PageStore;
use refusals::Refusal;
use searching::descend;
use std::marker::PhantomData;

mod finding;
mod pouring;

/// Writes the first postings of a key into the list, as many as it has places, and counts the pages read.
pub fn lookup<S: PageStore, K: KeyKind>(
    store: &mut S,
    key: &[u8],
    list: &mut [u64],
) -> Result<Looked, Refusal>
    ensures keeps_the_meaning { S.meaning store.new ≡ S.meaning store.old }
    ensures looks_up { LooksUp K.kind (S.meaning store.old).pages key.now list.old (answer_of result) list.new }
{
    let Some(part) = K::check(key) else {
        return Err(Refusal::Key(0));
    };
    let key = LawfulKey::<K> {
        field: part,
        kind: PhantomData,
    };
    let descent = descend::<S, K>(store, key.field)?;
    look_in_leaf(store, &descent, &key, list)
}
