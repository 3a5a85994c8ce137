//! Make: an empty tree over whatever stands on the pages.
#![tactic(auto)]

ghost use Rattle.std.specs.Prelude.{◌≡◌, ◌<◌, ◌≤◌, [], IfOk, OnErr, IfErr};
ghost use Rattle.refusals.specs.declared.Refusal.TheVariants.{Size};
ghost use Rattle.refusals.specs.Refusals.{Accepted, answer_of};
ghost use Rattle.page_store.specs.Meanings.{count_of, done};
ghost use Rattle.keys.specs.Kinds.{Kind};
ghost use Rattle.nodes.specs.Layout.{header_image, HeaderFits, leaf_image, LeafFits};
ghost use Rattle.nodes.specs.Codec.{Spells};
ghost use Rattle.tree.specs.Valid.{next_free, SpellFree, Valid};
ghost use Rattle.calls.specs.Making.{MakesEmptyTree};
ghost use Rattle.making.specs.EmptyTrees.{free_pages, empty_header, empty_leaf};

use keys::KeyKind;
use nodes::few::Few;
use nodes::free::Free;
use nodes::header::Header;
use nodes::leaf::Leaf;
use nodes::page::Page;
use page_store::{PAGE_SIZE, PageStore};
use refusals::Refusal;

// The fewest pages that a tree can stand on.
const FEWEST_PAGES: u32 = 8;

const HEADER: u32 = 0;

const ROOT: u32 = 1;

const FIRST_FREE: u32 = 2;

// How many pages there are, enough for a tree.
#[derive(Clone, Copy)]
struct Pages {
    count: u32,
    ghost are_8_or_more: { 8 ≤ count },
}

impl Pages {
    fn enough(count: u32) -> Result<Pages, Refusal>
        ensures are_those { IfOk result (λ pages. pages.count ≡ count) }
        ensures refuses_fewer_than_8 { OnErr result (count < 8) }
        ensures refuses_the_size { IfErr result (λ refusal. refusal ≡ Size count) }
    {
        if count < FEWEST_PAGES {
            return Err(Refusal::Size(count));
        }
        Ok(Pages { count })
    }
}

// Builds the free list from its end, each page in front of those after it, and answers its first page.
fn write_free_list<S: PageStore>(store: &mut S, pages: Pages) -> Result<u32, Refusal>
    requires are_its_pages { pages.count ≡ count_of (S.meaning store.old) }
    ensures answers_its_first_page { answer_of result ≡ Accepted (next_free (free_pages pages.count)) }
    ensures keeps_the_count { count_of (S.meaning store.new) ≡ pages.count }
    ensures spells_the_list { SpellFree (S.meaning store.new).pages (free_pages pages.count) }
{
    let mut next = 0;
    for page in (FIRST_FREE..pages.count).rev() {
        store.write(page, &Free { next }.encode())?;
        next = page;
    }
    Ok(next)
}

// The root of an empty tree: a leaf without entries.
fn root_page() -> [u8; PAGE_SIZE]
    ensures is_the_empty_leaf { Spells leaf_image LeafFits result empty_leaf }
{
    let leaf = Leaf {
        next: 0,
        entries: Few::new(),
    };
    leaf.encode()
}

// The kind by its code, which may be that of a maker's own kind.
fn header_page(kind_code: u8, first_free: u32, pages: Pages) -> [u8; PAGE_SIZE]
    ensures is_the_header { Spells header_image HeaderFits result (empty_header kind_code first_free pages.count) }
{
    let header = Header {
        kind_code,
        height: 1,
        root: ROOT,
        first_free,
        free: pages.count - FIRST_FREE,
        keys: 0,
        pages: pages.count,
    };
    header.encode()
}

// The header comes last: pages of which only a part is written have no header of this tree.
fn write_empty_tree<S: PageStore>(store: &mut S, kind_code: u8, pages: Pages) -> Result<(), Refusal>
    requires are_its_pages { pages.count ≡ count_of (S.meaning store.old) }
    ensures is_accepted { answer_of result ≡ done }
    ensures keeps_the_count { count_of (S.meaning store.new) ≡ pages.count }
    ensures is_a_tree_of_no_entries { (kind : Kind) → kind.code ≡ kind_code → Valid kind (S.meaning store.new).pages [] }
{
    let first_free = write_free_list(store, pages)?;
    store.write(ROOT, &root_page())?;
    store.write(HEADER, &header_page(kind_code, first_free, pages))
}

/// Writes an empty tree over whatever stands on the pages: the header, one leaf, and all other pages free.
pub fn make<S: PageStore, K: KeyKind>(store: &mut S) -> Result<(), Refusal>
    ensures makes_an_empty_tree { MakesEmptyTree K.kind (S.meaning store.old) (answer_of result) (S.meaning store.new) }
    ensures pages_are_few { count_of (S.meaning store.old) ≤ 65536 }
{
    let pages = Pages::enough(store.count())?;
    write_empty_tree(store, K::kind_code(), pages)
}
