use crate::piece::Piece;
use crate::places::{key_at, put};
use crate::row::ChildRow;
use crate::sizes::ROW_SIZE;
use numbers::BigEndian;

impl Piece<ROW_SIZE> for ChildRow {
    ghost use Rattle.nodes.specs.Layout.{InnerRow, row_bytes, RowFits};
    ghost use Rattle.nodes.specs.Readings.{row_in};
    ghost use Rattle.nodes.specs.Meanings.{row_of};

    ghost Value = { InnerRow };

    ghost bytes = { row_bytes };

    ghost Fits = { RowFits };

    ghost reading = { row_in };

    ghost meaning = { row_of };

    fn read(piece: &[u8; ROW_SIZE]) -> ChildRow {
        ChildRow {
            key: key_at(piece, 4),
            child: u32::read_at(piece, 0),
        }
    }

    fn encode(&self) -> [u8; ROW_SIZE] {
        let mut bytes = [0; ROW_SIZE];
        self.child.write_at(&mut bytes, 0);
        put(&mut bytes, 4, &self.key);
        bytes
    }
}
