/// The bytes of a page.
pub const PAGE_SIZE: usize = 512;
/// The bytes of a key field.
pub const KEY_SIZE: usize = 24;
/// The most rows of an inner node past row 0.
pub const MOST_ROWS: usize = 15;
/// The most entries of a leaf.
pub const MOST_ENTRIES: usize = 8;
/// The most inline postings of an entry.
pub const MOST_INLINE: usize = 3;
/// The most postings of a record page.
pub const MOST_POSTINGS: usize = 60;

/// The bytes in front of rows, entries and postings.
pub(crate) const FRONT_SIZE: usize = 32;

pub(crate) const ROW_SIZE: usize = 28;

pub(crate) const ENTRY_SIZE: usize = 60;

pub(crate) const POSTING_SIZE: usize = 8;

// Where the inline postings of an entry begin.
pub(crate) const INLINE_AT: usize = 28;
