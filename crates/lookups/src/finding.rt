//! The entry of a key in its leaf, and what it shows.

ghost use Rattle.std.specs.Prelude.{◌≡◌, ◌≤◌, map, length, MatchResult};
ghost use Rattle.std.specs.Option.{option_map};
ghost use Rattle.nodes.specs.Meanings.{entry_of, leaf_of};
ghost use Rattle.book.specs.Entries.{Entries};
ghost use Rattle.tree.specs.Trees.{EntryAt};
ghost use Rattle.tree.specs.Valid.{entry_in, Valid};
ghost use Rattle.searching.specs.Descents.{Arrives};
ghost use Rattle.searching.specs.NodeReads.{RefusesOnlyDamage};
ghost use Rattle.searching.specs.Chains.{ChainFrom};
ghost use Rattle.page_store.specs.Meanings.{count_of};
ghost use Rattle.lookups.specs.Showing.{FoundEntry, EntryShown, Shown};

use crate::pouring::{pour, pour_chain};
use calls::answers::Looked;
use keys::{KeyKind, LawfulKey};
use nodes::entry::Entry;
use nodes::leaf::Leaf;
use page_store::PageStore;
use refusals::Refusal;
use searching::Descent;

// The first of some entries that has a key, if one has it.
fn entry_among<'a>(entries: &'a [Entry], key: &[u8]) -> Option<&'a Entry>
    ensures has_the_key { FoundEntry key.now (map entry_of entries.now) (option_map (λ entry. entry_of entry.now) result) }
{
    entries.iter().find(|entry| entry.key.as_slice() == key)
}

// The entry of a leaf that has a key, if one has it.
fn entry_of<'a>(leaf: &'a Leaf, key: &[u8]) -> Option<&'a Entry>
    ensures has_the_key { FoundEntry key.now (leaf_of leaf.now).entries (option_map (λ entry. entry_of entry.now) result) }
{
    entry_among(leaf.entries.as_slice(), key)
}

// Writes the postings of an entry into the list; `reads` pages were read to find it.
fn show_entry<S: PageStore>(
    store: &mut S,
    entry: &Entry,
    reads: u32,
    list: &mut [u64],
) -> Result<Looked, Refusal>
    requires was_found_in_few_reads { reads ≤ 6 }
    ensures keeps_the_meaning { S.meaning store.new ≡ S.meaning store.old }
    ensures refuses_only_damage { RefusesOnlyDamage result }
    ensures shows_the_entry { (found : EntryAt) → entry_of entry.now ≡ entry_in found → ChainFrom (S.meaning store.old).pages (entry_in found).head found.records → length found.records ≤ count_of (S.meaning store.old) → MatchResult result (λ looked. EntryShown found reads list.old looked list.new) (λ _. ⊥) }
{
    let inline = entry.inline.as_slice();
    pour(list, 0, inline);
    let end = pour_chain(store, entry.head, inline.len(), list)?;
    Ok(end.looked(list.len(), reads))
}

/// Looks for a key in the leaf that the way down arrived at, and shows its entry.
pub(crate) fn look_in_leaf<S: PageStore, K: KeyKind>(
    store: &mut S,
    descent: &Descent,
    key: &LawfulKey<K>,
    list: &mut [u64],
) -> Result<Looked, Refusal>
    requires was_found_in_few_reads { descent.now.reads ≤ 6 }
    ensures keeps_the_meaning { S.meaning store.new ≡ S.meaning store.old }
    ensures refuses_only_damage { RefusesOnlyDamage result }
    ensures shows_what_the_tree_holds { (entries : Entries) (valid : Valid K.kind (S.meaning store.old).pages entries) → count_of (S.meaning store.old) ≤ 65536 → Arrives valid key.now.field.now descent.now → MatchResult result (λ looked. Shown valid key.now.field.now list.old looked list.new) (λ _. ⊥) }
{
    let Some(entry) = entry_of(&descent.leaf, key.field) else {
        return Ok(Looked {
            total: 0,
            written: 0,
            reads: descent.reads,
        });
    };
    show_entry(store, entry, descent.reads, list)
}
