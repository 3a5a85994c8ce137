//! The plain book: what it is, what a merge does to it, and the laws that hold of every kind, book and batch.
//! Each function answers true; its contract names the laws.
#![tactic(auto)]

ghost use Rattle.std.specs.Prelude.{◌≡◌, true};
ghost use Rattle.book.specs.Books.{plain};
ghost use Rattle.book.specs.Entries.{paged};
ghost use Rattle.book.specs.Examples.{WorkedPostings};
ghost use Rattle.book.specs.Laws.{CheckedBeforeIsJudgedInTurn, MergesAreAllOrNone, BooksStayBooks, EntriesStayFitting, PostingsAreCounted, ReversalsRestore, EntriesMergeAsTheirBook, ARowIsOneChange, MergedIntoTheEmptyBook};
ghost use Rattle.book.specs.LookingLaws.{LookupsFillTheList, ListingsFillTheBuffer, ListingsShowTheBook};

/// Small postings, worked out by the definitions.
pub fn worked_postings_hold() -> bool
    ensures is_true { result ≡ true }
    ensures worked_postings { WorkedPostings }
{
    let small_postings = true;
    small_postings
}

/// What a merge answers and leaves, of books and of entries.
pub fn merges_answer_and_leave_as_said() -> bool
    ensures is_true { result ≡ true }
    ensures a_check_before_answers_as_in_turn { CheckedBeforeIsJudgedInTurn plain }
    ensures a_check_before_answers_as_in_turn_for_entries { CheckedBeforeIsJudgedInTurn paged }
    ensures merges_are_all_or_none { MergesAreAllOrNone plain }
    ensures merges_are_all_or_none_for_entries { MergesAreAllOrNone paged }
    ensures books_stay_books { BooksStayBooks }
    ensures entries_stay_fitting { EntriesStayFitting }
    ensures entries_merge_as_their_book { EntriesMergeAsTheirBook }
    ensures a_row_is_one_change { ARowIsOneChange plain }
    ensures a_row_is_one_change_for_entries { ARowIsOneChange paged }
    ensures the_empty_book_takes_the_rows { MergedIntoTheEmptyBook }
{
    let merging_laws = true;
    merging_laws
}

/// What histories of accepted batches come to, and what reversing the last of them restores.
pub fn postings_are_counted_and_reversals_restore() -> bool
    ensures is_true { result ≡ true }
    ensures postings_are_counted { PostingsAreCounted }
    ensures reversals_restore { ReversalsRestore }
{
    let counting_laws = true;
    counting_laws
}

/// What lookups and listings write, and what a listing has of each key.
pub fn lookups_and_listings_show_the_book() -> bool
    ensures is_true { result ≡ true }
    ensures lookups_fill_the_list { LookupsFillTheList }
    ensures listings_fill_the_buffer { ListingsFillTheBuffer }
    ensures listings_show_the_book { ListingsShowTheBook }
{
    let looking_laws = true;
    looking_laws
}
