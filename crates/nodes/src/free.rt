/// A free page: the next one of the free list, 0 at its end.
#[derive(Clone, Copy, PartialEq, Eq, Debug)]
pub struct Free {
    pub next: u32,
}
