//! Pages of a store as typed values.

ghost use Rattle.std.specs.Prelude.{◌≡◌};
ghost use Rattle.searching.specs.NodeReads.{NodeRead};

use nodes::page::Page;
use nodes::sizes::PAGE_SIZE;
use page_store::PageStore;
use refusals::Refusal;

/// The value that stands on a page. A page that is no image of the wanted sort is DAMAGED.
pub fn read_node<S: PageStore, P: Page>(store: &mut S, page: u32) -> Result<P, Refusal>
    ensures keeps_the_meaning { S.meaning store.new ≡ S.meaning store.old }
    ensures reads_what_stands_there { NodeRead P.image P.Fits P.meaning (S.meaning store.old) page result }
{
    let mut bytes = [0; PAGE_SIZE];
    store.read(page, &mut bytes)?;
    P::decode(&bytes).ok_or(Refusal::Damaged)
}
