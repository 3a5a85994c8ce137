use crate::leaf::Leaf;
use crate::page::Page;
use crate::piece::{put_pieces, read_pieces};
use crate::places::fronted;
use crate::sizes::{ENTRY_SIZE, FRONT_SIZE, MOST_ENTRIES, PAGE_SIZE};
use crate::sort::PageSort;
use numbers::BigEndian;

impl Page for Leaf {
    ghost use Rattle.nodes.specs.Layout.{LeafPage, leaf_image, LeafFits};
    ghost use Rattle.nodes.specs.Readings.{leaf_in};
    ghost use Rattle.nodes.specs.Meanings.{leaf_of};
    ghost use Rattle.nodes.specs.PageLaws.{leaf_long};

    ghost Value = { LeafPage };

    ghost image = { leaf_image };

    ghost Fits = { LeafFits };

    ghost reading = { leaf_in };

    ghost meaning = { leaf_of };

    ghost image_is_a_page = { leaf_long };

    fn read(page: &[u8; PAGE_SIZE]) -> Leaf {
        let count = usize::from(u16::read_at(page, 2)).min(MOST_ENTRIES);
        let (pieces, _) = page[FRONT_SIZE..].as_chunks::<ENTRY_SIZE>();
        Leaf {
            next: u32::read_at(page, 4),
            entries: read_pieces(&pieces[..count]),
        }
    }

    fn encode(&self) -> [u8; PAGE_SIZE] {
        let mut page = fronted(PageSort::Leaf, self.entries.len() as u16, self.next);
        put_pieces(&mut page, FRONT_SIZE, self.entries.as_slice());
        page
    }
}
