//! A field together with the fact that it is lawful.

ghost use Rattle.std.specs.Prelude.{◌≡◌, true, if◌then◌else◌, Some, None, option_map};
ghost use Rattle.keys.specs.Kinds.{below};

use crate::KeyKind;
use std::cmp::Ordering;
use std::marker::PhantomData;

/// A field that its kind calls lawful: whoever holds one need not check it again. `check` makes one, or a literal where `K::check` said yes.
#[derive(Drop)]
pub struct LawfulKey<'a, K: KeyKind> {
    pub field: &'a [u8],
    pub kind: PhantomData<K>,
    pub ghost is_lawful: { K.kind.lawful field.now ≡ true },
}

impl<'a, K: KeyKind> LawfulKey<'a, K> {
    /// The caller's own bytes where they are a lawful field, else nothing.
    pub fn check(field: &'a [u8]) -> Option<LawfulKey<'a, K>>
        ensures is_the_field_if_lawful { option_map (λ key. key.field) result ≡ (if K.kind.lawful field.now then Some field.entry else None) }
    {
        let part = K::check(field)?;
        Some(LawfulKey {
            field: part,
            kind: PhantomData,
        })
    }

    /// How two keys compare.
    pub fn compare(&self, other: &LawfulKey<'_, K>) -> Ordering
        ensures is_the_order { result ≡ K.kind.order self.now.field.now other.now.field.now }
    {
        K::compare(self.field, other.field)
    }

    /// Whether the key lies below the other.
    pub fn is_below(&self, other: &LawfulKey<'_, K>) -> bool
        ensures is_the_order_of_the_kind { result ≡ below K.kind self.now.field.now other.now.field.now }
    {
        self.compare(other).is_lt()
    }

    /// How the key compares with a field; nothing where that is unlawful.
    pub fn compare_field(&self, field: &[u8]) -> Option<Ordering>
        ensures is_the_order_of_a_lawful_field { result ≡ (if K.kind.lawful field.now then Some (K.kind.order self.now.field.now field.now) else None) }
    {
        let other = LawfulKey::<K>::check(field)?;
        Some(self.compare(&other))
    }
}
