// Apart from the answers of an index: those stand in a crate above the tree, of which a book in memory knows nothing,
// and its lookups count page reads. Two structs, since their names say what is counted.

/// How many postings a key has, and how many of them a lookup wrote.
#[derive(Clone, Copy, PartialEq, Eq, Debug)]
pub struct Looked {
    pub total: usize,
    pub written: usize,
}

/// How many rows a listing has before skipping, and how many of them it wrote.
#[derive(Clone, Copy, PartialEq, Eq, Debug)]
pub struct Listing {
    pub total: usize,
    pub rows: usize,
}
