ghost use Rattle.std.specs.Prelude.{◌≡◌, ◌+◌, ◌<◌, ◌≤◌, [], ◌∷◌, ◌++◌, length, min, take, slice_index_or, slice_set, insert, remove};
ghost use Rattle.nodes.specs.Few.{items};

use crate::few::Few;

impl<T: Copy + Default, const MOST: usize> Few<T, MOST> {
    /// No values.
    pub fn new() -> Self
        ensures { items result ≡ [] }
    {
        Few {
            places: [T::default(); MOST],
            count: 0,
        }
    }
}

impl<T: Copy + Default, const MOST: usize> Default for Few<T, MOST> {
    ghost is_default = { λ few. items few ≡ [] };

    fn default() -> Self {
        Few::new()
    }
}

/// The values of a whole array.
impl<T, const MOST: usize> From<[T; MOST]> for Few<T, MOST> {
    ghost from_gives = { λ array few. (items few ≡ array) × (length (items few) ≡ MOST) };

    fn from(array: [T; MOST]) -> Self {
        Few {
            places: array,
            count: MOST,
        }
    }
}

impl<T: Copy, const MOST: usize> Few<T, MOST> {
    /// Appends `value`. There must be room.
    pub fn push(&mut self, value: T)
        requires { length (items self.old) < MOST }
        ensures items { items self.new ≡ items self.old ++ value ∷ [] }
        ensures len { length (items self.new) ≡ length (items self.old) + 1 }
    {
        let len = self.len();
        self.places[len] = value;
        self.count = len + 1;
    }

    /// Puts `value` in place of the one at `index`.
    pub fn set(&mut self, index: usize, value: T)
        requires { index < length (items self.old) }
        ensures items { items self.new ≡ slice_set (items self.old) index value }
        ensures len { length (items self.new) ≡ length (items self.old) }
    {
        self.places[index] = value;
    }

    /// Puts `value` at `index`, and moves those from there on up. There must be room.
    pub fn insert(&mut self, index: usize, value: T)
        requires in_bounds { index ≤ length (items self.old) }
        requires room { length (items self.old) < MOST }
        ensures items { items self.new ≡ insert (items self.old) index value }
        ensures len { length (items self.new) ≡ length (items self.old) + 1 }
    {
        let len = self.len();
        self.places.copy_within(index..len, index + 1);
        self.count = len + 1;
        self.set(index, value);
    }

    /// Takes the value at `index` out, and moves the later ones down.
    pub fn remove(&mut self, index: usize) -> T
        requires { index < length (items self.old) }
        ensures value { result ≡ slice_index_or (items self.old) index result }
        ensures items { items self.new ≡ remove (items self.old) index }
        ensures len { length (items self.new) + 1 ≡ length (items self.old) }
    {
        let value = self[index];
        let len = self.len();
        self.places.copy_within(index + 1..len, index);
        self.count = len - 1;
        value
    }
}

impl<T, const MOST: usize> Few<T, MOST> {
    /// Keeps the first `len` values, or all where there are no more.
    pub fn truncate(&mut self, len: usize)
        ensures items { items self.new ≡ take len (items self.old) }
        ensures len { length (items self.new) ≡ min len (length (items self.old)) }
    {
        self.count = self.len().min(len);
    }
}
