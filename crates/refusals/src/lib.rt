//! Why the kernel refuses a call: one enum for all layers, each case with its number and its place.
#![tactic(auto)]

ghost use Rattle.std.specs.Prelude.{◌≡◌, ℕ, true, Some};
ghost use Rattle.refusals.specs.Refusals.{number_of, place_of, NumberAndPlaceTellRefusalsApart};
ghost use Rattle.refusals.specs.Printing.{refusal_text};

use std::error::Error;
use std::fmt;

/// A refusal changes nothing. Rows, lines and pages count from 0, the steps of opening a batch from 1.
#[derive(Clone, Copy, PartialEq, Eq, Debug)]
pub enum Refusal {
    /// Merge, lookup or list on an index that is not open.
    NotOpen,
    /// The step of a batch's form that fails first.
    Form(u32),
    /// A batch, or a page image, of another kind code than the index.
    Kind,
    /// A key field that is unlawful or not 24 bytes, or a row's key that is not above the one before.
    Key(u32),
    /// A line whose sign, number or rising order is broken.
    Line(u32),
    /// A line posts a number that its key has.
    Stands(u32),
    /// A line cancels a number that its key lacks.
    Absent(u32),
    /// Fewer free pages than seven for each posting line.
    NoPages,
    /// A page that the store has lost.
    Lost(u32),
    /// The pages are no valid tree.
    Damaged,
    /// A store of fewer than eight pages.
    Size(u32),
    /// A page number that is not below the count of pages.
    Page(u32),
    /// A buffer that is not as long as the call wants it.
    Buffer(usize),
}

impl Refusal {
    // The numbers are those of the rules, which packages print and compare.
    pub fn number(self) -> u8
        ensures is_the_number { result ≡ number_of self }
    {
        match self {
            Refusal::NotOpen => 1,
            Refusal::Form(_) => 2,
            Refusal::Kind => 3,
            Refusal::Key(_) => 4,
            Refusal::Line(_) => 5,
            Refusal::Stands(_) => 6,
            Refusal::Absent(_) => 7,
            Refusal::NoPages => 8,
            Refusal::Lost(_) => 9,
            Refusal::Damaged => 10,
            Refusal::Size(_) => 11,
            Refusal::Page(_) => 12,
            Refusal::Buffer(_) => 13,
        }
    }

    pub fn place(self) -> usize
        ensures is_the_place { result ≡ place_of self }
    {
        match self {
            Refusal::NotOpen | Refusal::Kind | Refusal::NoPages | Refusal::Damaged => 0,
            Refusal::Form(at) | Refusal::Key(at) | Refusal::Line(at) => at as usize,
            Refusal::Stands(at) | Refusal::Absent(at) => at as usize,
            Refusal::Lost(at) | Refusal::Size(at) | Refusal::Page(at) => at as usize,
            Refusal::Buffer(len) => len,
        }
    }
}

/// Prints as its number and its place.
impl fmt::Display for Refusal {
    ghost output = { λ refusal. Some (refusal_text refusal) };

    fn fmt<W: fmt::Write>(&self, f: &mut fmt::Formatter<W>) -> fmt::Result {
        write!(f, "{} at place {}", self.number(), self.place())
    }
}

impl Error for Refusal {}

/// A refusal is known by its number and its place.
pub fn number_and_place_tell_refusals_apart() -> bool
    ensures is_true { result ≡ true }
    ensures tell_apart { NumberAndPlaceTellRefusalsApart }
{
    let apart = true;
    apart
}
