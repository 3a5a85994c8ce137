ghost use Rattle.std.specs.Prelude.{◌≡◌};
ghost use Rattle.batches.specs.Layout.{sign_byte};

/// What a line does with its number.
#[derive(Clone, Copy, PartialEq, Eq, Debug)]
pub enum Sign {
    Posting,
    Cancelling,
}

/// The byte that stands for a sign in a file.
impl From<Sign> for u8 {
    ghost from_gives = { λ sign byte. byte ≡ sign_byte sign };

    fn from(sign: Sign) -> u8 {
        match sign {
            Sign::Posting => b'+',
            Sign::Cancelling => b'-',
        }
    }
}

/// One line of a batch.
#[derive(Clone, Copy, PartialEq, Eq, Debug)]
pub struct Line {
    pub sign: Sign,
    pub number: u64,
}
