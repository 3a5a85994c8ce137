ghost use Rattle.std.specs.Prelude.{◌≡◌, ◌≤◌, ◌==◌, length};
ghost use Rattle.std.specs.Cmp.{on_equiv, on_per};
ghost use Rattle.std.specs.Cmp.Lexicographic.{pointwise, lists_per, lists_equiv};
ghost use Rattle.nodes.specs.Few.{items};

use crate::few::Few;
use std::alloc::AllocError;
use std::fmt;
use std::ops::DerefSlice;

impl<T, const MOST: usize> Few<T, MOST> {
    /// How many values there are.
    pub const fn len(&self) -> usize
        ensures value { result ≡ length (items self.now) }
        ensures fits { result ≤ MOST }
    {
        self.count
    }

    /// Whether there is no value.
    pub const fn is_empty(&self) -> bool
        ensures { result ≡ (length (items self.now) == 0) }
    {
        self.len() == 0
    }

    /// Whether there is no room left.
    pub const fn is_full(&self) -> bool
        ensures value { result ≡ (length (items self.now) == MOST) }
        ensures fits { length (items self.now) ≤ MOST }
    {
        self.len() == MOST
    }

    /// The values.
    pub fn as_slice(&self) -> &[T]
        ensures value { result.now ≡ items self.now }
        ensures fits { length result.now ≤ MOST }
    {
        &self.places[..self.len()]
    }
}

impl<T, const MOST: usize> DerefSlice for Few<T, MOST> {
    type Elem = T;

    ghost deref_gives = { λ few xs. (xs ≡ items few) × (length xs ≤ MOST) };

    fn deref(&self) -> &[T] {
        self.as_slice()
    }
}

// By hand: no Clone is derived for what has ghost fields and a type parameter.
impl<T: Copy, const MOST: usize> Clone for Few<T, MOST> {
    ghost is_clone = { λ a b. b ≡ a };

    ghost is_infallible = { λ _. Unit {0} };

    fn clone(&self) -> Result<Self, AllocError> {
        Ok(*self)
    }
}

// By hand: the places past the values are not compared.
impl<T: PartialEq, const MOST: usize> PartialEq for Few<T, MOST> {
    ghost eq = { λ a b. pointwise T.eq (items a) (items b) };

    ghost laws = { on_per (λ few. items few) (lists_per T.laws) };

    fn eq(&self, other: &Self) -> bool {
        self[..] == other[..]
    }
}

impl<T: Eq, const MOST: usize> Eq for Few<T, MOST> {
    ghost laws = { on_equiv (λ few. items few) (lists_equiv T.Eq.laws) };
}

// By hand: the places past the values are not printed.
impl<T: fmt::Debug, const MOST: usize> fmt::Debug for Few<T, MOST> {
    fn fmt<W: fmt::Write>(&self, f: &mut fmt::Formatter<W>) -> fmt::Result {
        f.debug_list().entries(self.as_slice()).finish()
    }
}
