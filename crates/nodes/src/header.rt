/// The header, page 0.
#[derive(Clone, Copy, PartialEq, Eq, Debug)]
pub struct Header {
    /// A number and no enum: makers have kinds of their own.
    pub kind_code: u8,
    /// Levels of the tree, 1 for a root that is a leaf.
    pub height: u16,
    pub root: u32,
    /// The first page of the free list, 0 for none.
    pub first_free: u32,
    pub free: u32,
    pub keys: u32,
    pub pages: u32,
}
