use crate::inner::InnerNode;
use crate::page::Page;
use crate::piece::{put_pieces, read_pieces};
use crate::places::fronted;
use crate::sizes::{FRONT_SIZE, MOST_ROWS, PAGE_SIZE, ROW_SIZE};
use crate::sort::PageSort;
use numbers::BigEndian;

// Where row 1 begins.
const ROWS_AT: usize = FRONT_SIZE + ROW_SIZE;

impl Page for InnerNode {
    ghost use Rattle.nodes.specs.Layout.{InnerPage, inner_image, InnerFits};
    ghost use Rattle.nodes.specs.Readings.{inner_in};
    ghost use Rattle.nodes.specs.Meanings.{inner_of};
    ghost use Rattle.nodes.specs.PageLaws.{inner_long};

    ghost Value = { InnerPage };

    ghost image = { inner_image };

    ghost Fits = { InnerFits };

    ghost reading = { inner_in };

    ghost meaning = { inner_of };

    ghost image_is_a_page = { inner_long };

    fn read(page: &[u8; PAGE_SIZE]) -> InnerNode {
        let count = usize::from(u16::read_at(page, 2))
            .saturating_sub(1)
            .min(MOST_ROWS);
        let (pieces, _) = page[ROWS_AT..].as_chunks::<ROW_SIZE>();
        InnerNode {
            first: u32::read_at(page, FRONT_SIZE),
            rows: read_pieces(&pieces[..count]),
        }
    }

    fn encode(&self) -> [u8; PAGE_SIZE] {
        let mut page = fronted(PageSort::Inner, self.rows.len() as u16 + 1, 0);
        self.first.write_at(&mut page, FRONT_SIZE);
        put_pieces(&mut page, ROWS_AT, self.rows.as_slice());
        page
    }
}
