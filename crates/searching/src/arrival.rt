use nodes::leaf::Leaf;

// That reads are at most 6 is said where one is handed out: the fields are public, and a bound in the type would ask more of whoever makes one.
/// A leaf, and how many pages were read on the way down to it, its own among them and the header not.
#[derive(Clone, Copy, PartialEq, Eq, Debug)]
pub struct Descent {
    pub leaf: Leaf,
    pub reads: u32,
}
