//! A fact about every kind, for a function whose contract states it.

ghost use Rattle.keys.specs.Ranks.{RanksTell};

use crate::KeyKind;

/// Any kind's order is that of ranks. Calling this does nothing: it tells the fact once for each way out of its caller.
pub(crate) fn ranks_tell_the_order<K: KeyKind>()
    ensures holds { RanksTell K.kind }
{}
