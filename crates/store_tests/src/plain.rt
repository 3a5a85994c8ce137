use page_store::{PAGE_SIZE, PageStore};
use refusals::Refusal;

/// A plain list of pages, none where a page is lost: another way to say what a store does.
#[derive(Drop)]
pub struct Plain {
    pub pages: Vec<Option<[u8; PAGE_SIZE]>>,
}

impl Plain {
    // The page that a read into a buffer of this length finds.
    fn read(&self, page: u32, len: usize) -> Result<&[u8; PAGE_SIZE], Refusal> {
        if len != PAGE_SIZE {
            return Err(Refusal::Buffer(len));
        }
        match self.pages.get(page as usize) {
            None => Err(Refusal::Page(page)),
            Some(None) => Err(Refusal::Lost(page)),
            Some(Some(bytes)) => Ok(bytes),
        }
    }

    fn write(&mut self, page: u32, buffer: &[u8]) -> Result<(), Refusal> {
        let bytes = buffer.as_array().ok_or(Refusal::Buffer(buffer.len()))?;
        let place = self
            .pages
            .get_mut(page as usize)
            .ok_or(Refusal::Page(page))?;
        *place = Some(*bytes);
        Ok(())
    }
}

fn is_untouched(buffer: &[u8]) -> bool {
    buffer.iter().all(|byte| *byte == 77)
}

// Whether a read into a buffer of 77s answers and fills as the list says; a refused one leaves the buffer.
fn reads_alike<S: PageStore>(store: &mut S, plain: &Plain, page: u32, buffer: &mut [u8]) -> bool {
    let answer = store.read(page, buffer);
    match plain.read(page, buffer.len()) {
        Ok(bytes) => answer == Ok(()) && buffer[..] == bytes[..],
        Err(refusal) => answer == Err(refusal) && is_untouched(buffer),
    }
}

// Bytes that rise from this one on, round and round.
fn fill(buffer: &mut [u8], byte: u8) {
    let mut next = byte;
    for b in buffer {
        *b = next;
        next = next.wrapping_add(1);
    }
}

fn writes_alike<S: PageStore>(
    store: &mut S,
    plain: &mut Plain,
    page: u32,
    buffer: &mut [u8],
    byte: u8,
) -> bool {
    fill(buffer, byte);
    store.write(page, buffer) == plain.write(page, buffer)
}

// One call, made on both. A match on a number: the number is drawn, and how many arms name a call is its odds.
fn call<S: PageStore>(
    store: &mut S,
    plain: &mut Plain,
    pick: u32,
    page: u32,
    buffer: &mut [u8],
) -> bool {
    match (pick >> 24) % 8 {
        0 => {
            store.settle();
            true
        }
        1 | 2 | 3 => writes_alike(store, plain, page, buffer, (pick % 256) as u8),
        _ => reads_alike(store, plain, page, buffer),
    }
}

fn step<S: PageStore>(store: &mut S, plain: &mut Plain, pick: u32) -> bool {
    let count = store.count();
    if count as usize != plain.pages.len() {
        return false;
    }
    let page = (pick >> 8) % (count % 65536 + 2);
    let len = if pick % 11 == 0 { 511 } else { 512 };
    let mut buffer = [77; PAGE_SIZE];
    call(store, plain, pick, page, &mut buffer[..len])
}

/// Whether a store and a list of pages answer alike over many calls.
pub(crate) fn run_beside<S: PageStore>(
    store: &mut S,
    plain: &mut Plain,
    seed: u32,
    steps: u32,
) -> bool {
    let mut pick = seed;
    for _ in 0..steps {
        pick = pick.wrapping_mul(1664525).wrapping_add(1013904223);
        if !step(store, plain, pick) {
            return false;
        }
    }
    true
}
