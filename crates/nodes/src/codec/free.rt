use crate::free::Free;
use crate::page::Page;
use crate::places::fronted;
use crate::sizes::PAGE_SIZE;
use crate::sort::PageSort;
use numbers::BigEndian;

impl Page for Free {
    ghost use Rattle.nodes.specs.Layout.{FreePage, free_image, FreeFits};
    ghost use Rattle.nodes.specs.Readings.{free_in};
    ghost use Rattle.nodes.specs.Meanings.{free_of};
    ghost use Rattle.nodes.specs.PageLaws.{free_long};

    ghost Value = { FreePage };

    ghost image = { free_image };

    ghost Fits = { FreeFits };

    ghost reading = { free_in };

    ghost meaning = { free_of };

    ghost image_is_a_page = { free_long };

    fn read(page: &[u8; PAGE_SIZE]) -> Free {
        Free {
            next: u32::read_at(page, 4),
        }
    }

    fn encode(&self) -> [u8; PAGE_SIZE] {
        fronted(PageSort::Free, 0, self.next)
    }
}
