ghost use Rattle.std.specs.Prelude.{◌≡◌, ◌≤◌, length};
ghost use Rattle.std.specs.List.{slice_get};
ghost use Rattle.batches.specs.Layout.{lines_of};
ghost use Rattle.batches.specs.Reading.{kind_code, rows_in};
ghost use Rattle.batches.specs.Rows.{RowAt};

use crate::checking::{lines, read_line, rows};
use crate::line::Line;
use crate::open::OpenBatch;
use crate::rows::{BatchRow, OpenRow};
use crate::walking::{Lines, Rows};
use numbers::BigEndian;

impl<'a> OpenBatch<'a> {
    /// The bytes, as they were handed in.
    pub fn bytes(&self) -> &'a [u8]
        ensures are_those_handed_in { result ≡ self.now.bytes }
    {
        self.bytes
    }

    /// Ends the batch unmerged, and answers its number of lines.
    #[tactic(auto, using(crate::proofs::Rowwise::lines_counted))]
    pub fn withdraw(self) -> u32
        ensures is_the_number_of_lines { result ≡ length (lines_of (rows_in self.entry.bytes.now)) }
    {
        u32::read_at(self.spend(), 12)
    }

    // A number and no enum: makers have kinds of their own.
    #[tactic(auto, using(crate::proofs::Rowwise::has_a_head))]
    pub fn kind_code(&self) -> u8
        ensures is_the_kind_code { result ≡ kind_code self.now.bytes.now }
    {
        self.bytes[4]
    }

    #[tactic(auto, using(crate::proofs::Rowwise::rows_counted))]
    pub fn row_count(&self) -> u32
        ensures is_the_number_of_rows { result ≡ length (rows_in self.now.bytes.now) }
    {
        u32::read_at(self.bytes, 8)
    }

    #[tactic(auto, using(crate::proofs::Rowwise::lines_counted))]
    pub fn line_count(&self) -> u32
        ensures is_the_number_of_lines { result ≡ length (lines_of (rows_in self.now.bytes.now)) }
    {
        u32::read_at(self.bytes, 12)
    }

    /// Row i, or nothing past the last.
    #[tactic(auto, using(crate::proofs::Rowwise::row_by_number))]
    pub fn row(&self, i: u32) -> Option<BatchRow<'a>>
        ensures is_row_i { RowAt (rows_in self.now.bytes.now) i result }
    {
        let piece = rows(self.bytes).get(i as usize)?;
        Some(BatchRow {
            key: &piece[..24],
            first: u32::read_at(piece, 24),
            count: u32::read_at(piece, 28),
        })
    }

    /// Line j of the file, or nothing past the last.
    #[tactic(auto, using(crate::proofs::Rowwise::line_by_number))]
    pub fn line(&self, j: u32) -> Option<Line>
        ensures is_line_j { result ≡ slice_get (lines_of (rows_in self.now.bytes.now)) j }
    {
        read_line(lines(self.bytes).get(j as usize)?)
    }

    /// All rows, first to last.
    #[tactic(auto, using(crate::proofs::Rowwise::all_rows))]
    pub fn rows(&self) -> Rows<'a>
        ensures are_the_rows { result ≡ record { first = 0; rows = rows_in self.now.bytes.now } }
        ensures are_at_most_1024 { length result.rows ≤ 1024 }
    {
        Rows {
            rows: rows(self.bytes).iter(),
            lines: lines(self.bytes),
            first: 0,
        }
    }

    /// All lines in the order of the file.
    #[tactic(auto, using(crate::proofs::Rowwise::all_lines))]
    pub fn lines(&self) -> Lines<'a>
        ensures are_the_lines { result ≡ lines_of (rows_in self.now.bytes.now) }
        ensures are_at_most_1024 { length result ≤ 1024 }
    {
        Lines {
            pieces: lines(self.bytes).iter(),
        }
    }
}

impl<'a> OpenRow<'a> {
    ghost use Rattle.std.specs.Prelude.{◌≡◌};
    ghost use Rattle.batches.specs.Rows.{lines_read};

    /// The lines of the row, first to last.
    pub fn lines(&self) -> Lines<'a>
        ensures are_the_lines_of_the_row { result ≡ lines_read self.now }
    {
        Lines {
            pieces: self.pieces.iter(),
        }
    }
}
