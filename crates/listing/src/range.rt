//! The keys from one to another, both included.

ghost use Rattle.std.specs.Prelude.{◌≡◌};
ghost use Rattle.keys.specs.Kinds.{below};

use keys::{KeyKind, LawfulKey};

/// The keys from the first to the second; none where the first is above the second. Each key has a lifetime of its own, as the call's two have.
#[derive(Drop)]
pub(crate) struct KeyRange<'a, 'b, K: KeyKind> {
    pub(crate) first: LawfulKey<'a, K>,
    pub(crate) second: LawfulKey<'b, K>,
}

impl<K: KeyKind> KeyRange<'_, '_, K> {
    /// Whether the first key lies above the second.
    pub(crate) fn goes_back(&self) -> bool
        ensures is_above { result ≡ below K.kind self.now.second.field.now self.now.first.field.now }
    {
        self.second.is_below(&self.first)
    }

    /// Whether a key lies below the first.
    pub(crate) fn starts_after(&self, key: &LawfulKey<K>) -> bool
        ensures is_below_it { result ≡ below K.kind key.now.field.now self.now.first.field.now }
    {
        key.is_below(&self.first)
    }

    /// Whether a key lies above the second, which is included.
    pub(crate) fn ends_before(&self, key: &LawfulKey<K>) -> bool
        ensures is_above_it { result ≡ below K.kind self.now.second.field.now key.now.field.now }
    {
        self.second.is_below(key)
    }
}
