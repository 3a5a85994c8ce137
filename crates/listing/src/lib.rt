//! The call "list": rows of the postings of the keys from one to another, on the pages of any store.
#![tactic(auto)]

ghost use Rattle.std.specs.Prelude.{◌≡◌};
ghost use Rattle.refusals.specs.Refusals.{answer_of};
ghost use Rattle.calls.specs.Listings.{ListsRows};

use between::list_between;
use calls::answers::RowsListed;
use keys::{KeyKind, LawfulKey};
use page_store::PageStore;
use range::KeyRange;
use refusals::Refusal;
use rows::Window;
use std::marker::PhantomData;

mod between;
mod entries;
mod leaves;
mod range;
mod rows;

/// Writes a row for each posting of the keys from the first to the second, both included, past the rows to skip, as many as fit whole into the buffer.
pub fn list<S: PageStore, K: KeyKind>(
    store: &mut S,
    first: &[u8],
    second: &[u8],
    skip: u64,
    buffer: &mut [u8],
) -> Result<RowsListed, Refusal>
    ensures keeps_the_meaning { S.meaning store.new ≡ S.meaning store.old }
    ensures lists_the_rows { ListsRows K.kind (S.meaning store.old).pages first.now second.now skip buffer.old (answer_of result) buffer.new }
{
    let Some(low) = K::check(first) else {
        return Err(Refusal::Key(0));
    };
    let Some(high) = K::check(second) else {
        return Err(Refusal::Key(1));
    };
    let range = KeyRange::<K> {
        first: LawfulKey {
            field: low,
            kind: PhantomData,
        },
        second: LawfulKey {
            field: high,
            kind: PhantomData,
        },
    };
    let mut window = Window { skip, buffer };
    list_between(store, &range, &mut window)
}
