use crate::plain::{Plain, run_beside};
use cache::Cache;
use counting_store::Counting;
use page_store::PageStore;
use stores::flat::Flat;
use stores::sealed::Sealed;
use stores::stripe::Stripe;

/// A cache over a stripe of a sealed and a flat store.
pub type Stack = Cache<Stripe<Sealed, Flat>>;

/// A stripe of such a stack and of another cache, under a cache.
pub type Deeper = Cache<Stripe<Stack, Cache<Flat>>>;

pub(crate) fn stack(sealed: Vec<u8>, flat: Vec<u8>) -> Stack {
    Cache::over(Stripe::over(Sealed::over(sealed), Flat::over(flat)))
}

// How many bytes are not 0.
fn stained(memory: &[u8]) -> usize {
    memory.iter().filter(|byte| **byte != 0).count()
}

#[cfg(test)]
mod tests {
    use super::*;
    use crate::copy_page;
    use refusals::Refusal;
    use std::test::Fail;

    // Four sealed pages, the second of them lost, and seven flat ones: eight pages, of which number 2 is lost.
    #[test]
    fn stack_beside_a_list(rt: HostRuntime) -> Result<(), Fail> {
        let mut sealed = vec![in rt.alloc(); 0u8; 2164]?;
        if let Some(byte) = sealed.get_mut(519) {
            *byte = 9;
        }
        let flat = vec![in rt.alloc(); 0u8; 3589]?;
        let mut plain = Plain {
            pages: vec![in rt.alloc(); Some([0u8; 512]); 8]?,
        };
        if let Some(page) = plain.pages.get_mut(2) {
            *page = None;
        }
        let mut stack = stack(sealed, flat);
        assert!(rt; run_beside(&mut stack, &mut plain, 1, 5000));
        let mut below = stack.into_below();
        assert!(rt; run_beside(&mut below, &mut plain, 2, 2000));
        Ok(())
    }

    #[test]
    fn deeper_beside_a_list(rt: HostRuntime) -> Result<(), Fail> {
        let sealed = vec![in rt.alloc(); 0u8; 2164]?;
        let flat = vec![in rt.alloc(); 0u8; 3589]?;
        let other = vec![in rt.alloc(); 0u8; 2048]?;
        let mut plain = Plain {
            pages: vec![in rt.alloc(); Some([0u8; 512]); 8]?,
        };
        let mut deeper: Deeper = Cache::over(Stripe::over(
            stack(sealed, flat),
            Cache::over(Flat::over(other)),
        ));
        assert!(rt; run_beside(&mut deeper, &mut plain, 3, 5000));
        assert!(rt; copy_page(&mut deeper, 3, 9) == Err(Refusal::Page(9)));
        let mut below = deeper.into_below();
        assert!(rt; run_beside(&mut below, &mut plain, 4, 2000));
        Ok(())
    }

    // A page of ones has the seal 131,328, in bytes 0, 2, 1, 0; nothing else changes, not the bytes past the last page.
    #[test]
    fn a_page_and_its_seal(rt: HostRuntime) -> Result<(), Fail> {
        let memory = vec![in rt.alloc(); 0u8; 1600]?;
        let mut store = Sealed::over(memory);
        assert!(rt; store.count() == 3);
        assert!(rt; store.write(1, &[1; 512]) == Ok(()));
        let memory = store.into_memory();
        assert!(rt; memory.get(1028..1032) == Some(&[0, 2, 1, 0]));
        assert!(rt; stained(&memory) == 514);
        Ok(())
    }

    // A cache reads a page once, and settling what was only read writes nothing.
    #[test]
    fn a_cache_saves_reads(rt: HostRuntime) -> Result<(), Fail> {
        let mut flat = Flat::over(vec![in rt.alloc(); 0u8; 4096]?);
        let mut cache = Cache::over(Counting::over(&mut flat));
        for _ in 0..5 {
            assert!(rt; cache.read(3, &mut [0; 512]) == Ok(()));
        }
        cache.settle();
        let counting = cache.into_below();
        let (reads, writes) = counting.counts();
        assert!(rt; reads == 3 && writes == 0);
        Ok(())
    }
}
