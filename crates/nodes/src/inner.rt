use crate::few::Few;
use crate::row::ChildRow;
use crate::sizes::MOST_ROWS;
use std::alloc::AllocError;

/// An inner node: the child of row 0, and the rows after it.
#[derive(Copy, PartialEq, Eq, Debug)]
pub struct InnerNode {
    pub first: u32,
    pub rows: Few<ChildRow, MOST_ROWS>,
}

// By hand, to say that a clone is the node itself and never fails.
impl Clone for InnerNode {
    ghost use Rattle.std.specs.Prelude.{◌≡◌};

    ghost is_clone = { λ a b. b ≡ a };

    ghost is_infallible = { λ _. Unit {0} };

    fn clone(&self) -> Result<InnerNode, AllocError> {
        Ok(*self)
    }
}
