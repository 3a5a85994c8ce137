use crate::piece::Piece;
use crate::sizes::POSTING_SIZE;

impl Piece<POSTING_SIZE> for u64 {
    ghost use Rattle.std.specs.Prelude.{ℕ, ◌^◌, ◌<◌};
    ghost use Rattle.numbers.specs.BigEndian.{number_of, bytes_of};

    ghost Value = { ℕ };

    ghost bytes = { bytes_of 8 };

    ghost Fits = { λ n. n < 2 ^ 64 };

    ghost reading = { number_of };

    ghost meaning = { λ n. n };

    fn read(piece: &[u8; POSTING_SIZE]) -> u64 {
        u64::from_be_bytes(*piece)
    }

    fn encode(&self) -> [u8; POSTING_SIZE] {
        self.to_be_bytes()
    }
}
