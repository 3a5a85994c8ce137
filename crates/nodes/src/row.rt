ghost use Rattle.std.specs.Prelude.{◌≡◌, length};

use crate::sizes::KEY_SIZE;

/// A row of an inner node past row 0: a separator and the child right of it.
#[derive(Clone, Copy, PartialEq, Eq, Debug)]
pub struct ChildRow {
    pub key: [u8; KEY_SIZE],
    pub child: u32,
    ghost has_24_key_bytes: { length key ≡ 24 },
}

// By hand: no Default is derived for what has ghost fields.
/// A row of zeros.
impl Default for ChildRow {
    ghost use Rattle.std.specs.Prelude.{replicate};

    ghost is_default = { λ row. (row.key ≡ replicate 24 0) × (row.child ≡ 0) };

    fn default() -> ChildRow {
        ChildRow {
            key: [0; KEY_SIZE],
            child: 0,
        }
    }
}
