//! The rows of an entry: of its inline postings, and of its chain of records.

ghost use Rattle.std.specs.Prelude.{◌≡◌, ◌+◌, ◌^◌, ◌≤◌, IfOk};
ghost use Rattle.nodes.specs.Meanings.{entry_of};
ghost use Rattle.listing.specs.Windows.{Stays};
ghost use Rattle.listing.specs.Walks.{most_in_entry, ChainWalked, EntryWalked};

use crate::rows::Window;
use nodes::entry::Entry;
use nodes::records::Record;
use nodes::sizes::KEY_SIZE;
use page_store::PageStore;
use refusals::Refusal;
use searching::read_node;

// The rows of a chain, read no further than to the last row that is shown. A chain that goes on through as many records as pages is DAMAGED.
// Apart from the walk of a lookup, with which it shares one read of a record page: it stops at the last row that is shown, and refuses a chain without an end.
fn list_chain<S: PageStore>(
    store: &mut S,
    key: &[u8; KEY_SIZE],
    head: u32,
    at: u64,
    window: &mut Window,
) -> Result<(), Refusal>
    requires rows_can_be_counted { at ≤ 2 ^ 62 }
    ensures keeps_the_meaning { S.meaning store.new ≡ S.meaning store.old }
    ensures stays_over_the_buffer { Stays window.old window.new }
    ensures walks_the_chain { ChainWalked (S.meaning store.old).pages key.now head at window.old.skip window.old.buffer.now result window.new.buffer.now }
{
    let count = store.count();
    let mut page = head;
    let mut next = at;
    // A bound on the walk and no index: what is walked along is the page.
    for _step in 0..count {
        if page == 0 || window.is_past(next) {
            return Ok(());
        }
        let record: Record = read_node(store, page)?;
        let postings = record.postings.as_slice();
        window.put_rows(key, postings, next);
        next += postings.len() as u64;
        page = record.next;
    }
    Err(Refusal::Damaged)
}

/// The rows of an entry, of which the first is row `at`. Answers the row after them; a chain of which no row is shown is not read.
pub(crate) fn list_entry<S: PageStore>(
    store: &mut S,
    entry: &Entry,
    at: u64,
    window: &mut Window,
) -> Result<u64, Refusal>
    requires rows_can_be_counted { at ≤ 2 ^ 61 }
    ensures keeps_the_meaning { S.meaning store.new ≡ S.meaning store.old }
    ensures stays_over_the_buffer { Stays window.old window.new }
    ensures counts_few { IfOk result (λ next. next ≤ at + most_in_entry) }
    ensures walks_the_entry { EntryWalked (S.meaning store.old).pages (entry_of entry.now) at window.old.skip window.old.buffer.now result window.new.buffer.now }
{
    let inline = entry.inline.as_slice();
    window.put_rows(&entry.key, inline, at);
    let chain_start = at + inline.len() as u64;
    let chain_end = chain_start + entry.chained as u64;
    if window.shows_any(chain_start, chain_end) {
        list_chain(store, &entry.key, entry.head, chain_start, window)?;
    }
    Ok(chain_end)
}
