//! Postings written into a caller's list, as far as it reaches.

ghost use Rattle.std.specs.Prelude.{◌≡◌, ◌+◌, ◌≤◌, min, List, length, IfOk, MatchResult};
ghost use Rattle.page_store.specs.Meanings.{count_of};
ghost use Rattle.tree.specs.Trees.{RecordAt};
ghost use Rattle.searching.specs.NodeReads.{RefusesOnlyDamage};
ghost use Rattle.searching.specs.Chains.{ChainFrom};
ghost use Rattle.lookups.specs.Pouring.{poured, ChainPoured};

use calls::answers::Looked;
use nodes::records::Record;
use page_store::PageStore;
use refusals::Refusal;
use searching::read_node;

/// How many records a chain had, and the place after its last posting.
#[derive(Clone, Copy)]
pub struct ChainEnd {
    pub records: u32,
    pub place: usize,
}

impl ChainEnd {
    /// What a lookup answers of postings that end here, in a list of so many places; `reads` pages were read before the chain.
    pub(crate) fn looked(self, places: usize, reads: u32) -> Looked
        requires can_be_counted { (reads ≤ 6) × (self.records ≤ 65536) }
        ensures counts_postings_places_and_reads { result ≡ record { total = self.place; written = min self.place places; reads = reads + self.records } }
    {
        Looked {
            total: self.place as u64,
            written: self.place.min(places),
            reads: reads + self.records,
        }
    }
}

/// Writes postings into the list from a place on; those past the list's end are left out.
pub(crate) fn pour(list: &mut [u64], place: usize, postings: &[u64])
    ensures writes_what_fits { list.new ≡ poured place postings.now list.old }
{
    let start = place.min(list.len());
    let count = postings.len().min(list.len() - start);
    list[start..start + count].copy_from_slice(&postings[..count]);
}

/// Writes the postings of a chain into the list from a place on, reading each of its records once. No chain has more records than there are pages.
// Apart from the walk that lists a chain, with which it shares one read of a record page. One walk over a closure would call it at any count, so that its sums had no bound.
pub(crate) fn pour_chain<S: PageStore>(
    store: &mut S,
    head: u32,
    place: usize,
    list: &mut [u64],
) -> Result<ChainEnd, Refusal>
    requires begins_at_an_inline_count { place ≤ 3 }
    ensures keeps_the_meaning { S.meaning store.new ≡ S.meaning store.old }
    ensures refuses_only_damage { RefusesOnlyDamage result }
    ensures counts_at_most_every_page { IfOk result (λ end. end.records ≤ 65536) }
    ensures pours_the_chain { (records : List RecordAt) → ChainFrom (S.meaning store.old).pages head records → length records ≤ count_of (S.meaning store.old) → MatchResult result (λ end. ChainPoured place records list.old end list.new) (λ _. ⊥) }
{
    let count = store.count();
    let mut page = head;
    let mut end = ChainEnd { records: 0, place };
    // A bound on the walk and no index: what is walked along is the page.
    for _step in 0..count {
        if page == 0 {
            return Ok(end);
        }
        let record: Record = read_node(store, page)?;
        let postings = record.postings.as_slice();
        pour(list, end.place, postings);
        end.records += 1;
        end.place += postings.len();
        page = record.next;
    }
    Ok(end)
}
