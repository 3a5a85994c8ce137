/// What a lookup answers: how many postings the key has, how many of them were written, and how many pages were read.
#[derive(Clone, Copy, PartialEq, Eq, Debug)]
pub struct Looked {
    pub total: u64,
    pub written: usize,
    pub reads: u32,
}

/// What a listing answers: how many rows there are before skipping, and how many were written.
#[derive(Clone, Copy, PartialEq, Eq, Debug)]
pub struct RowsListed {
    pub total: u64,
    pub written: usize,
}
