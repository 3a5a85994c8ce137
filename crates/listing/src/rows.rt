//! Rows of 32 bytes at their places in the caller's buffer.

ghost use Rattle.std.specs.Prelude.{◌≡◌, ◌+◌, ◌-◌, ◌/◌, ◌^◌, ◌<◌, min, length};
ghost use Rattle.listing.specs.Filling.{is_shown, is_past, is_any_shown, row_put, rows_of, filled};
ghost use Rattle.listing.specs.Windows.{with_bytes};

use nodes::sizes::KEY_SIZE;
use numbers::BigEndian;

/// The bytes of a row: a key field and a posting.
const ROW_SIZE: usize = 32;

/// The caller's buffer as a window on the rows of a listing: it shows those past the rows to skip, as many as fit whole.
#[derive(Drop)]
pub(crate) struct Window<'a> {
    pub(crate) skip: u64,
    pub(crate) buffer: &'a mut [u8],
}

impl Window<'_> {
    // How many rows fit whole.
    fn places(&self) -> u64
        ensures are_whole { result ≡ length self.now.buffer.now / 32 }
    {
        (self.buffer.len() / ROW_SIZE) as u64
    }

    // Whether a row is shown.
    fn shows(&self, at: u64) -> bool
        ensures tells_the_window { result ≡ is_shown self.now.skip (length self.now.buffer.now) at }
    {
        self.skip <= at && at - self.skip < self.places()
    }

    /// Whether a row and all after it are past those that are shown.
    pub(crate) fn is_past(&self, at: u64) -> bool
        ensures tells_the_end { result ≡ is_past self.now.skip (length self.now.buffer.now) at }
    {
        self.skip <= at && self.places() <= at - self.skip
    }

    /// Whether one of the rows from one up to another is shown.
    pub(crate) fn shows_any(&self, from: u64, to: u64) -> bool
        ensures tells_of_any { result ≡ is_any_shown self.now.skip (length self.now.buffer.now) from to }
    {
        let first = from.max(self.skip);
        first < to && self.shows(first)
    }

    /// How many of so many rows are shown: of those past the rows to skip, as many as fit whole.
    pub(crate) fn count_shown(&self, total: u64) -> usize
        ensures is_the_lesser { result ≡ min (total - self.now.skip) (length self.now.buffer.now / 32) }
    {
        total.saturating_sub(self.skip).min(self.places()) as usize
    }

    // A row at its place, if it is shown.
    fn put_row(&mut self, key: &[u8; KEY_SIZE], posting: u64, at: u64)
        ensures is_put { self.new ≡ with_bytes self.old (row_put self.old.skip at (record { key = key.now; posting = posting }) self.old.buffer.now) }
    {
        if !self.shows(at) {
            return;
        }
        let place = (at - self.skip) as usize * ROW_SIZE;
        self.buffer[place..place + KEY_SIZE].copy_from_slice(key);
        posting.write_at(self.buffer, place + KEY_SIZE);
    }

    /// The rows of a key, of which the first is row `at` of the listing.
    #[tactic(auto, using(crate::proofs::Filling::put_more, std::proofs::lemmas::List::take_all))]
    pub(crate) fn put_rows(&mut self, key: &[u8; KEY_SIZE], postings: &[u64], at: u64)
        requires rows_can_be_counted { at + length postings.now < 2 ^ 63 }
        ensures are_put { self.new ≡ with_bytes self.old (filled self.old.skip at (rows_of key.now postings.now) self.old.buffer.now) }
    {
        for (i, posting) in postings.iter().enumerate() {
            self.put_row(key, *posting, at + i as u64);
        }
    }
}
