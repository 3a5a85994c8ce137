//! A listing between two lawful keys.

ghost use Rattle.std.specs.Prelude.{◌≡◌};
ghost use Rattle.refusals.specs.Refusals.{answer_of};
ghost use Rattle.listing.specs.Windows.{Stays};
ghost use Rattle.listing.specs.Between.{ListsBetween};

use crate::leaves::list_leaves;
use crate::range::KeyRange;
use crate::rows::Window;
use calls::answers::RowsListed;
use keys::KeyKind;
use page_store::PageStore;
use refusals::Refusal;
use searching::descend;

/// Lists from the leaf of the first key on. No page is read where the first key is above the second.
pub(crate) fn list_between<S: PageStore, K: KeyKind>(
    store: &mut S,
    range: &KeyRange<K>,
    window: &mut Window,
) -> Result<RowsListed, Refusal>
    ensures keeps_the_meaning { S.meaning store.new ≡ S.meaning store.old }
    ensures stays_over_the_buffer { Stays window.old window.new }
    ensures lists_between { ListsBetween K.kind (S.meaning store.old).pages range.now.first.field.now range.now.second.field.now window.old.skip window.old.buffer.now (answer_of result) window.new.buffer.now }
{
    if range.goes_back() {
        return Ok(RowsListed {
            total: 0,
            written: 0,
        });
    }
    let descent = descend::<S, K>(store, range.first.field)?;
    let total = list_leaves(store, descent.leaf, range, window)?;
    let written = window.count_shown(total);
    Ok(RowsListed { total, written })
}
