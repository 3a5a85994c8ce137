//! The rows of the leaves that hold keys from one to another.

ghost use Rattle.std.specs.Prelude.{◌≡◌, ◌+◌, ◌^◌, ◌≤◌, IfOk};
ghost use Rattle.nodes.specs.Meanings.{leaf_of};
ghost use Rattle.listing.specs.Windows.{Stays};
ghost use Rattle.listing.specs.Walks.{most_in_leaf, row_after, LeafWalked, LeavesWalked};

use crate::entries::list_entry;
use crate::range::KeyRange;
use crate::rows::Window;
use keys::{KeyKind, LawfulKey};
use nodes::leaf::Leaf;
use page_store::PageStore;
use refusals::Refusal;
use searching::read_node;
use std::ops::ControlFlow;

// The rows of a leaf, of which the first is row `at`: those of the keys in the range. Answers the row after them, and breaks off at a key above the range.
fn list_leaf<S: PageStore, K: KeyKind>(
    store: &mut S,
    leaf: &Leaf,
    range: &KeyRange<K>,
    at: u64,
    window: &mut Window,
) -> Result<ControlFlow<u64, u64>, Refusal>
    requires rows_can_be_counted { at ≤ 2 ^ 60 }
    ensures keeps_the_meaning { S.meaning store.new ≡ S.meaning store.old }
    ensures stays_over_the_buffer { Stays window.old window.new }
    ensures counts_few { IfOk result (λ flow. row_after flow ≤ at + most_in_leaf) }
    ensures walks_the_leaf { LeafWalked K.kind (S.meaning store.old).pages (leaf_of leaf.now) range.now.first.field.now range.now.second.field.now at window.old.skip window.old.buffer.now result window.new.buffer.now }
{
    let mut next = at;
    for entry in leaf.entries.as_slice() {
        let Some(key) = LawfulKey::<K>::check(&entry.key) else {
            return Err(Refusal::Damaged);
        };
        if range.starts_after(&key) {
            continue;
        }
        if range.ends_before(&key) {
            return Ok(ControlFlow::Break(next));
        }
        next = list_entry(store, entry, next, window)?;
    }
    Ok(ControlFlow::Continue(next))
}

/// The rows of the leaves from one on, up to the first key above the range. Answers how many rows there are; leaves that go on past as many as pages are DAMAGED.
pub(crate) fn list_leaves<S: PageStore, K: KeyKind>(
    store: &mut S,
    start: Leaf,
    range: &KeyRange<K>,
    window: &mut Window,
) -> Result<u64, Refusal>
    ensures keeps_the_meaning { S.meaning store.new ≡ S.meaning store.old }
    ensures stays_over_the_buffer { Stays window.old window.new }
    ensures walks_the_leaves { LeavesWalked K.kind (S.meaning store.old).pages (leaf_of start) range.now.first.field.now range.now.second.field.now window.old.skip window.old.buffer.now result window.new.buffer.now }
{
    let count = store.count();
    let mut leaf = start;
    let mut next = 0;
    // A bound on the walk and no index: what is walked along is the page.
    for _step in 0..count {
        match list_leaf(store, &leaf, range, next, window)? {
            ControlFlow::Break(total) => return Ok(total),
            ControlFlow::Continue(row) => next = row,
        }
        let right = leaf.next;
        if right == 0 {
            return Ok(next);
        }
        leaf = read_node(store, right)?;
    }
    Err(Refusal::Damaged)
}
