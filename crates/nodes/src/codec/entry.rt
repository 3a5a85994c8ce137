use crate::entry::Entry;
use crate::piece::{Piece, put_pieces, read_pieces};
use crate::places::{key_at, put};
use crate::sizes::{ENTRY_SIZE, INLINE_AT, MOST_INLINE, POSTING_SIZE};
use numbers::BigEndian;

impl Piece<ENTRY_SIZE> for Entry {
    ghost use Rattle.nodes.specs.Layout.{LeafEntry, entry_bytes, EntryFits};
    ghost use Rattle.nodes.specs.Readings.{entry_in};
    ghost use Rattle.nodes.specs.Meanings.{entry_of};

    ghost Value = { LeafEntry };

    ghost bytes = { entry_bytes };

    ghost Fits = { EntryFits };

    ghost reading = { entry_in };

    ghost meaning = { entry_of };

    // A count beyond its most is cut to it.
    fn read(piece: &[u8; ENTRY_SIZE]) -> Entry {
        let count = (u32::read_at(piece, 24) as usize).min(MOST_INLINE);
        let (places, _) = piece[INLINE_AT..].as_chunks::<POSTING_SIZE>();
        Entry {
            key: key_at(piece, 0),
            inline: read_pieces(&places[..count]),
            head: u32::read_at(piece, 52),
            chained: u32::read_at(piece, 56),
        }
    }

    fn encode(&self) -> [u8; ENTRY_SIZE] {
        let mut bytes = [0; ENTRY_SIZE];
        put(&mut bytes, 0, &self.key);
        (self.inline.len() as u32).write_at(&mut bytes, 24);
        put_pieces(&mut bytes, INLINE_AT, self.inline.as_slice());
        self.head.write_at(&mut bytes, 52);
        self.chained.write_at(&mut bytes, 56);
        bytes
    }
}
