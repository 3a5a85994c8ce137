ghost use Rattle.std.specs.Prelude.{◌≡◌, ℕ, List, length};
ghost use Rattle.nodes.specs.Codec.{Encoded, Decoded};

use crate::sizes::PAGE_SIZE;

/// What a page of one sort holds, and the 512 bytes of the page.
pub trait Page: Drop {
    // What such a page says, and its bytes where it fits.
    ghost Value: { Type 0 };

    ghost image: { Value → List ℕ };

    ghost Fits: { Value → Type 0 };

    // What stands in the places of any bytes.
    ghost reading: { List ℕ → Value };

    // What a value of the type says.
    ghost meaning: { Self → Value };

    /// What stands in the bytes, whatever else they hold, a count outside its bounds moved to the nearest. `decode` is the call that confirms it.
    fn read(page: &[u8; PAGE_SIZE]) -> Self
        ensures is_what_stands_there { meaning result ≡ reading page.now }
        ensures is_the_value_of_an_image { (v : Value) → Fits v → page.now ≡ image v → meaning result ≡ v };

    /// The page of this value.
    fn encode(&self) -> [u8; PAGE_SIZE]
        ensures is_its_page { Encoded image Fits meaning (meaning self.now) result };

    /// The value of a page, if the bytes are the page of one.
    fn decode(page: &[u8]) -> Option<Self>
        ensures is_the_value_whose_page_it_is { Decoded image Fits meaning page.now result }
    {
        let page = page.as_array()?;
        let value = Self::read(page);
        if value.encode() == *page {
            Some(value)
        } else {
            None
        }
    }

    ghost image_is_a_page: { (v : Value) → Fits v → length (image v) ≡ 512 };
}
