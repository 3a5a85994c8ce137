//! Code over any page store, proved once, and tests that run stacks of stores beside plain lists of pages.
#![tactic(auto)]

ghost use Rattle.std.specs.Prelude.{◌≡◌, ℕ, true};
ghost use Rattle.refusals.specs.Refusals.{answer_of};
ghost use Rattle.page_store.specs.Meanings.{Meaning, count_of};
ghost use Rattle.store_tests.specs.Copying.{copy_answer, after_copy};

use page_store::{PAGE_SIZE, PageStore};
use refusals::Refusal;

/// Copies one page over another, in any store.
pub fn copy_page<S: PageStore>(store: &mut S, from: u32, to: u32) -> Result<(), Refusal>
    ensures answers_by_the_meaning { answer_of result ≡ copy_answer (S.meaning store.old) from to }
    ensures copies_that_page { S.meaning store.new ≡ after_copy (S.meaning store.old) from to }
{
    let mut page = [0; PAGE_SIZE];
    store.read(from, &mut page)?;
    store.write(to, &page)
}

pub mod drawn;
mod plain;
mod stacks;
