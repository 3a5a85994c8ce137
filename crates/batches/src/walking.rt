//! The lines and the rows of an open batch, one after another.

use crate::checking::read_line;
use crate::line::Line;
use crate::rows::OpenRow;
use numbers::BigEndian;
use std::marker::Model;
use std::slice;

/// Lines of an open batch, first to last, and from the back. A contract sees those that are left.
#[derive(Drop)]
pub struct Lines<'a> {
    pub(crate) pieces: slice::Iter<'a, [u8; 9]>,
}

impl<'a> Model for Lines<'a> {
    ghost use Rattle.std.specs.Prelude.{List, map};
    ghost use Rattle.std.specs.List.{AllPass};
    ghost use Rattle.std.specs.Slice.Iter.{iter_rest};
    ghost use Rattle.batches.specs.declared.line.Line.{Line};
    ghost use Rattle.batches.specs.Reading.{cell_of, line_of};
    ghost use Rattle.batches.specs.Opening.{has_sign};

    ghost Value = { List Line };

    ghost view = { λ lines. map line_of (map cell_of (iter_rest lines.pieces)) };

    ghost invariant = { λ lines. AllPass has_sign (map cell_of (iter_rest lines.pieces)) };
}

impl Iterator for Lines<'_> {
    ghost use Rattle.std.specs.Iterator.{YieldsFirst, item_count};

    type Item = Line;

    ghost next_gives = { YieldsFirst (λ lines. lines) };

    ghost remaining = { item_count (λ lines. lines) };

    fn next(&mut self) -> Option<Line> {
        read_line(self.pieces.next()?)
    }
}

impl DoubleEndedIterator for Lines<'_> {
    ghost use Rattle.std.specs.Iterator.{YieldsLast};

    ghost next_back_gives = { YieldsLast (λ lines. lines) };

    fn next_back(&mut self) -> Option<Line> {
        read_line(self.pieces.next_back()?)
    }
}

/// The rows of an open batch, first to last. A contract sees those that are left, and the number of the next line.
#[derive(Drop)]
pub struct Rows<'a> {
    pub(crate) rows: slice::Iter<'a, [u8; 32]>,
    pub(crate) lines: &'a [[u8; 9]],
    pub(crate) first: u32,
}

impl<'a> Model for Rows<'a> {
    ghost use Rattle.std.specs.Slice.Iter.{iter_rest};
    ghost use Rattle.batches.specs.Walking.{RowsLeft, rows_left, RowsGoOn};

    ghost Value = { RowsLeft };

    ghost view = { λ left. rows_left left.first (iter_rest left.rows) left.lines.now };

    ghost invariant = { λ left. RowsGoOn left.first (iter_rest left.rows) left.lines.now };
}

impl<'a> Iterator for Rows<'a> {
    ghost use Rattle.std.specs.Iterator.{item_count};
    ghost use Rattle.batches.specs.Rows.{GivesRow};

    type Item = OpenRow<'a>;

    ghost next_gives = { GivesRow };

    ghost remaining = { item_count (λ left. left.rows) };

    fn next(&mut self) -> Option<OpenRow<'a>> {
        let piece = self.rows.next()?;
        let first = self.first;
        let count = u32::read_at(piece, 28);
        let (pieces, others) = self.lines.split_at(count as usize);
        self.lines = others;
        self.first += count;
        Some(OpenRow {
            key: &piece[..24],
            first,
            count,
            pieces,
        })
    }
}
