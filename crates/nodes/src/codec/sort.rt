ghost use Rattle.std.specs.Prelude.{◌≡◌, MatchOption, ◌≢◌, slice_index};
ghost use Rattle.nodes.specs.declared.sort.PageSort.{PageSort as Sort};
ghost use Rattle.nodes.specs.Sorts.{sort_number};
ghost use Rattle.nodes.specs.Codec.{SortsTellImages};

use crate::sort::{PageSort, UnknownSort};

/// The number of the sort, as byte 0 has it.
impl From<PageSort> for u8 {
    ghost from_gives = { λ sort n. n ≡ sort_number sort };

    fn from(sort: PageSort) -> u8 {
        match sort {
            PageSort::Header => 1,
            PageSort::Inner => 2,
            PageSort::Leaf => 3,
            PageSort::Record => 4,
            PageSort::Free => 5,
        }
    }
}

/// The sort that a number names, if it names one.
impl TryFrom<u8> for PageSort {
    type Error = UnknownSort;

    ghost use Rattle.std.specs.Prelude.{MatchResult};

    ghost try_from_gives = { λ n r. MatchResult r (λ sort. n ≡ sort_number sort) (λ _. (sort : Sort) → n ≢ sort_number sort) };

    fn try_from(number: u8) -> Result<PageSort, UnknownSort> {
        match number {
            1 => Ok(PageSort::Header),
            2 => Ok(PageSort::Inner),
            3 => Ok(PageSort::Leaf),
            4 => Ok(PageSort::Record),
            5 => Ok(PageSort::Free),
            _ => Err(UnknownSort),
        }
    }
}

impl PageSort {
    /// The sort that byte 0 of a page names, if it names one.
    pub fn of(page: &[u8]) -> Option<PageSort>
        ensures is_the_sort_of_byte_0 { MatchOption result ((sort : Sort) → slice_index page.now 0 ≢ sort_number sort) (λ sort. slice_index page.now 0 ≡ sort_number sort) }
        ensures tells_the_sort_of_every_image { SortsTellImages page.now result }
    {
        PageSort::try_from(*page.first()?).ok()
    }
}
