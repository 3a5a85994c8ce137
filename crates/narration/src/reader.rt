//! A narration and a place in it.

ghost use Rattle.std.specs.Prelude.{◌≤◌, length};
ghost use Rattle.narration.specs.Turns.{Turn};
ghost use Rattle.narration.specs.Letters.{fixed_table};

/// Stands where a word or a gap begins, or at the end.
#[derive(Drop)]
pub struct Reader<'a> {
    pub(crate) narration: &'a [u8],
    pub(crate) place: usize,
    ghost is_within: { place ≤ length narration.now },
    ghost is_at_a_turn: { Turn fixed_table narration.now place },
}
