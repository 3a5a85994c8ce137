//! The valid tree on pages: what the pages of an index have to be, and what follows from it.
#![tactic(auto)]

ghost use Rattle.std.specs.Prelude.{◌≡◌, true};
ghost use Rattle.tree.specs.Counts.{PagesAreInUseOrFree};
ghost use Rattle.tree.specs.Empty.{EmptyTreesAreOneLeaf};
ghost use Rattle.tree.specs.Heights.{HeightSevenNeeds65536Leaves, HeightIsAtMostSix};
ghost use Rattle.tree.specs.Textbook.{ValidTreesAreBPlusTrees};
ghost use Rattle.tree.specs.Unique.{EntriesAreUnique, PagesHoldOneTree};

/// How high a valid tree can be.
pub fn valid_trees_are_at_most_six_high() -> bool
    ensures is_true { result ≡ true }
    ensures seven_levels_need_65536_leaves { HeightSevenNeeds65536Leaves }
    ensures at_most_six { HeightIsAtMostSix }
{
    let heights = true;
    heights
}

/// Where the pages of a valid tree go.
pub fn pages_are_in_use_or_free() -> bool
    ensures is_true { result ≡ true }
    ensures header_nodes_and_records_are_in_use { PagesAreInUseOrFree }
{
    let pages_in_use = true;
    pages_in_use
}

/// That pages determine the tree on them, and so its entries.
pub fn entries_that_pages_hold_are_unique() -> bool
    ensures is_true { result ≡ true }
    ensures entries_are_unique { EntriesAreUnique }
    ensures pages_hold_one_tree { PagesHoldOneTree }
{
    let unique_trees = true;
    unique_trees
}

/// That a valid tree is a B+-tree as textbooks have it.
pub fn valid_trees_are_b_plus_trees() -> bool
    ensures is_true { result ≡ true }
    ensures are_b_plus_trees { ValidTreesAreBPlusTrees }
{
    let textbook_trees = true;
    textbook_trees
}

/// What a valid tree of no entries is.
pub fn empty_trees_are_one_leaf() -> bool
    ensures is_true { result ≡ true }
    ensures are_one_leaf { EmptyTreesAreOneLeaf }
{
    let empty_trees = true;
    empty_trees
}
