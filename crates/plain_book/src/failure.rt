ghost use Rattle.std.specs.Prelude.{◌≡◌, Some};
ghost use Rattle.plain_book.specs.declared.failure.Failure.TheVariants.{Refuses, OutOfMemory};
ghost use Rattle.plain_book.specs.Printing.{failure_text};

use refusals::Refusal;
use std::alloc::AllocError;
use std::error::Error;
use std::fmt;

/// Why a call of the executable book fails: refused as the kernel refuses, or for want of memory.
#[derive(Clone, Copy, PartialEq, Eq, Debug)]
pub enum Failure {
    Refuses(Refusal),
    OutOfMemory,
}

impl From<Refusal> for Failure {
    ghost from_gives = { λ refusal failure. failure ≡ Refuses refusal };

    fn from(refusal: Refusal) -> Self {
        Self::Refuses(refusal)
    }
}

impl From<AllocError> for Failure {
    ghost from_gives = { λ _ failure. failure ≡ OutOfMemory };

    fn from(_error: AllocError) -> Self {
        Self::OutOfMemory
    }
}

/// Prints why, and of a refusal that it changed nothing.
impl fmt::Display for Failure {
    ghost output = { λ failure. Some (failure_text failure) };

    fn fmt<W: fmt::Write>(&self, f: &mut fmt::Formatter<W>) -> fmt::Result {
        match self {
            Failure::Refuses(refusal) => write!(f, "refused: {refusal}; nothing changed"),
            Failure::OutOfMemory => write!(f, "no memory left"),
        }
    }
}

impl Error for Failure {}
