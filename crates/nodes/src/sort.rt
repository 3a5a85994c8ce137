/// What a page is, by the number in its byte 0.
#[derive(Clone, Copy, PartialEq, Eq, Debug)]
pub enum PageSort {
    Header,
    Inner,
    Leaf,
    Record,
    Free,
}

/// Why a number is no sort.
#[derive(Clone, Copy, PartialEq, Eq, Debug)]
pub struct UnknownSort;
