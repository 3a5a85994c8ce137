use crate::header::Header;
use crate::page::Page;
use crate::places::begun;
use crate::sizes::PAGE_SIZE;
use crate::sort::PageSort;
use numbers::BigEndian;

impl Page for Header {
    ghost use Rattle.nodes.specs.Layout.{HeaderPage, header_image, HeaderFits};
    ghost use Rattle.nodes.specs.Readings.{header_in};
    ghost use Rattle.nodes.specs.Meanings.{header_of};
    ghost use Rattle.nodes.specs.PageLaws.{header_long};

    ghost Value = { HeaderPage };

    ghost image = { header_image };

    ghost Fits = { HeaderFits };

    ghost reading = { header_in };

    ghost meaning = { header_of };

    ghost image_is_a_page = { header_long };

    fn read(page: &[u8; PAGE_SIZE]) -> Header {
        Header {
            kind_code: page[1],
            height: u16::read_at(page, 2),
            root: u32::read_at(page, 4),
            first_free: u32::read_at(page, 8),
            free: u32::read_at(page, 12),
            keys: u32::read_at(page, 16),
            pages: u32::read_at(page, 20),
        }
    }

    fn encode(&self) -> [u8; PAGE_SIZE] {
        let mut page = begun(PageSort::Header, self.kind_code);
        self.height.write_at(&mut page, 2);
        self.root.write_at(&mut page, 4);
        self.first_free.write_at(&mut page, 8);
        self.free.write_at(&mut page, 12);
        self.keys.write_at(&mut page, 16);
        self.pages.write_at(&mut page, 20);
        page
    }
}
