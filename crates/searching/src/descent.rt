//! The way down from the root to the leaf of a key.

ghost use Rattle.std.specs.Prelude.{◌≡◌, suc, ◌+◌, ◌<◌, ◌≤◌, true, IfOk, Some, MatchResult};
ghost use Rattle.std.specs.List.{AllByRecursion};
ghost use Rattle.page_store.specs.Meanings.{count_of};
ghost use Rattle.nodes.specs.Layout.{InnerRow};
ghost use Rattle.nodes.specs.Meanings.{header_of, inner_of};
ghost use Rattle.book.specs.Entries.{Entries};
ghost use Rattle.tree.specs.Trees.{root_of};
ghost use Rattle.tree.specs.Valid.{Valid};
ghost use Rattle.searching.specs.NodeReads.{RefusesOnlyDamage};
ghost use Rattle.searching.specs.Descents.{child_for, header_on, plausible, Arrives};

use crate::arrival::Descent;
use crate::reading::read_node;
use keys::{KeyKind, is_below};
use nodes::header::Header;
use nodes::inner::InnerNode;
use page_store::PageStore;
use refusals::Refusal;

/// The most levels of a valid tree.
const MOST_LEVELS: u16 = 6;

// The page of the header.
const HEADER: u32 = 0;

// By hand, since the test of a row can fail, and a test given to `partition_point` cannot.
// The child of the last row whose separator is not above the key, else the first child. Nothing where a key is unlawful.
fn child_for<K: KeyKind>(node: &InnerNode, key: &[u8]) -> Option<u32>
    ensures goes_by_the_separators { K.kind.lawful key.now ≡ true → AllByRecursion (λ (row : InnerRow). K.kind.lawful row.key ≡ true) (inner_of node.now).rows → result ≡ Some (child_for K.kind key.now (inner_of node.now).first (inner_of node.now).rows) }
{
    let mut child = node.first;
    for row in node.rows.as_slice() {
        if is_below::<K>(key, &row.key)? {
            return Some(child);
        }
        child = row.child;
    }
    Some(child)
}

// Whether a header can be that of a valid tree of the kind on so many pages.
fn is_plausible<K: KeyKind>(header: &Header, count: u32) -> bool
    ensures tells_what_can_be { result ≡ plausible K.kind count (header_of header.now) }
{
    header.kind_code == K::kind_code()
        && header.pages == count
        && (1..=MOST_LEVELS).contains(&header.height)
}

// The header, if it is plausible.
fn header_of<S: PageStore, K: KeyKind>(store: &mut S) -> Result<Header, Refusal>
    ensures keeps_the_meaning { S.meaning store.new ≡ S.meaning store.old }
    ensures pages_are_few { count_of (S.meaning store.old) ≤ 65536 }
    ensures is_the_header { (entries : Entries) (valid : Valid K.kind (S.meaning store.old).pages entries) → MatchResult result (λ header. header_of header ≡ header_on valid) (λ _. ⊥) }
    ensures refuses_only_damage { RefusesOnlyDamage result }
    ensures has_1_to_6_levels { IfOk result (λ header. (1 ≤ header.height) × (header.height ≤ 6)) }
{
    let count = store.count();
    let header = read_node(store, HEADER)?;
    if is_plausible::<K>(&header, count) {
        Ok(header)
    } else {
        Err(Refusal::Damaged)
    }
}

// From the root down, one inner node a level, to a leaf.
fn way_down<S: PageStore, K: KeyKind>(
    store: &mut S,
    root: u32,
    height: u16,
    key: &[u8],
) -> Result<Descent, Refusal>
    requires has_1_to_6_levels { (1 ≤ height) × (height ≤ 6) }
    ensures keeps_the_meaning { S.meaning store.new ≡ S.meaning store.old }
    ensures refuses_only_damage { RefusesOnlyDamage result }
    ensures reads_at_most_6_pages { IfOk result (λ d. d.reads ≤ 6) }
    ensures arrives { (entries : Entries) (valid : Valid K.kind (S.meaning store.old).pages entries) → count_of (S.meaning store.old) ≤ 65536 → root ≡ root_of valid.levels valid.tree → height ≡ suc valid.levels → K.kind.lawful key.now ≡ true → MatchResult result (Arrives valid key.now) (λ _. ⊥) }
{
    let mut page = root;
    let mut reads = 0;
    // A bound on the walk and no index: what is walked along is the page.
    for _level in 1..height {
        let node: InnerNode = read_node(store, page)?;
        reads += 1;
        page = child_for::<K>(&node, key).ok_or(Refusal::Damaged)?;
    }
    let leaf = read_node(store, page)?;
    Ok(Descent {
        leaf,
        reads: reads + 1,
    })
}

/// Goes down to the leaf that has the key if any leaf has it, reading a page on each level. DAMAGED where the pages cannot be a valid tree.
pub fn descend<S: PageStore, K: KeyKind>(store: &mut S, key: &[u8]) -> Result<Descent, Refusal>
    ensures keeps_the_meaning { S.meaning store.new ≡ S.meaning store.old }
    ensures pages_are_few { count_of (S.meaning store.old) ≤ 65536 }
    ensures refuses_only_damage { RefusesOnlyDamage result }
    ensures reads_at_most_6_pages { IfOk result (λ d. d.reads ≤ 6) }
    ensures arrives_at_the_leaf_of_the_key { (entries : Entries) (valid : Valid K.kind (S.meaning store.old).pages entries) → K.kind.lawful key.now ≡ true → MatchResult result (Arrives valid key.now) (λ _. ⊥) }
{
    let header = header_of::<S, K>(store)?;
    way_down::<S, K>(store, header.root, header.height, key)
}
