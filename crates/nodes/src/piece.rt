ghost use Rattle.std.specs.Prelude.{◌≡◌, ℕ, ◌+◌, ◌*◌, ◌≤◌, List, map, length};
ghost use Rattle.std.specs.List.{flat_map, AllByRecursion};
ghost use Rattle.numbers.specs.BigEndian.{written};
ghost use Rattle.nodes.specs.Few.{items};

use crate::few::Few;
use crate::places::put;

/// What pages hold in pieces of one width, one after another.
pub(crate) trait Piece<const WIDTH: usize>: Copy + Default {
    // What such a piece says, and its bytes where it fits.
    ghost Value: { Type 0 };

    ghost bytes: { Value → List ℕ };

    ghost Fits: { Value → Type 0 };

    // What stands in any bytes.
    ghost reading: { List ℕ → Value };

    // What a value of the type says.
    ghost meaning: { Self → Value };

    /// What stands in a piece.
    fn read(piece: &[u8; WIDTH]) -> Self
        ensures is_what_stands_there { meaning result ≡ reading piece.now };

    /// The piece of this value.
    fn encode(&self) -> [u8; WIDTH]
        ensures are_its_bytes { result ≡ bytes (meaning self.now) }
        ensures fits { Fits (meaning self.now) }
        ensures has_its_width { length result ≡ WIDTH };
}

/// What stands in so many pieces.
pub(crate) fn read_pieces<P: Piece<WIDTH>, const WIDTH: usize, const MOST: usize>(
    pieces: &[[u8; WIDTH]],
) -> Few<P, MOST>
    requires are_few { length pieces.now ≤ MOST }
    ensures are_what_stands_there { map P.meaning (items result) ≡ map P.reading pieces.now }
{
    let mut values = Few::new();
    for piece in pieces {
        values.push(P::read(piece));
    }
    values
}

/// Values over the bytes from `at` on.
pub(crate) fn put_pieces<P: Piece<WIDTH>, const WIDTH: usize>(
    page: &mut [u8],
    at: usize,
    values: &[P],
)
    requires within { at + WIDTH * length values.now ≤ length page.old }
    ensures are_written { page.new ≡ written page.old at (flat_map P.bytes (map P.meaning values.now)) }
    ensures fit { AllByRecursion P.Fits (map P.meaning values.now) }
{
    for (i, value) in values.iter().enumerate() {
        put(page, at + WIDTH * i, &value.encode());
    }
}
