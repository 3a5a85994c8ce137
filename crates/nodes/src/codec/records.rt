use crate::page::Page;
use crate::piece::{put_pieces, read_pieces};
use crate::places::fronted;
use crate::records::Record;
use crate::sizes::{FRONT_SIZE, MOST_POSTINGS, PAGE_SIZE, POSTING_SIZE};
use crate::sort::PageSort;
use numbers::BigEndian;

impl Page for Record {
    ghost use Rattle.nodes.specs.Layout.{RecordPage, record_image, RecordFits};
    ghost use Rattle.nodes.specs.Readings.{record_in};
    ghost use Rattle.nodes.specs.Meanings.{record_of};
    ghost use Rattle.nodes.specs.PageLaws.{record_long};

    ghost Value = { RecordPage };

    ghost image = { record_image };

    ghost Fits = { RecordFits };

    ghost reading = { record_in };

    ghost meaning = { record_of };

    ghost image_is_a_page = { record_long };

    fn read(page: &[u8; PAGE_SIZE]) -> Record {
        let count = usize::from(u16::read_at(page, 2)).clamp(1, MOST_POSTINGS);
        let (pieces, _) = page[FRONT_SIZE..].as_chunks::<POSTING_SIZE>();
        Record {
            next: u32::read_at(page, 4),
            postings: read_pieces(&pieces[..count]),
        }
    }

    fn encode(&self) -> [u8; PAGE_SIZE] {
        let mut page = fronted(PageSort::Record, self.postings.len() as u16, self.next);
        put_pieces(&mut page, FRONT_SIZE, self.postings.as_slice());
        page
    }
}
