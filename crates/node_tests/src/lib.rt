//! Tests of pages: values that come back, and bytes that no page has.
#![tactic(auto)]

#[cfg(test)]
mod tests {
    use nodes::entry::Entry;
    use nodes::few::Few;
    use nodes::free::Free;
    use nodes::header::Header;
    use nodes::inner::InnerNode;
    use nodes::leaf::Leaf;
    use nodes::page::Page;
    use nodes::records::Record;
    use nodes::row::ChildRow;
    use nodes::sizes::PAGE_SIZE;
    use nodes::sort::PageSort;
    use std::test::Fail;

    fn header() -> Header {
        Header {
            kind_code: 1,
            height: 2,
            root: 3,
            first_free: 9,
            free: 55,
            keys: 12,
            pages: 64,
        }
    }

    fn entry() -> Entry {
        let mut inline = Few::from([9, 7, 5]);
        inline.truncate(2);
        Entry {
            key: [b'r'; 24],
            inline,
            head: 6,
            chained: 61,
        }
    }

    fn leaf() -> Leaf {
        let mut entries = Few::from([entry(); 8]);
        entries.truncate(5);
        Leaf { next: 4, entries }
    }

    fn inner() -> InnerNode {
        let row = ChildRow {
            key: [b'k'; 24],
            child: 8,
        };
        let mut rows = Few::from([row; 15]);
        rows.truncate(7);
        InnerNode { first: 3, rows }
    }

    fn record() -> Record {
        let mut postings = Few::from([7; 60]);
        postings.truncate(10);
        Record { next: 0, postings }
    }

    // A page with another byte at a place.
    fn spoiled(mut page: [u8; PAGE_SIZE], at: usize, byte: u8) -> [u8; PAGE_SIZE] {
        if at < PAGE_SIZE {
            page[at] = byte;
        }
        page
    }

    fn is_refused<P: Page>(value: &P, at: usize, byte: u8) -> bool {
        P::decode(&spoiled(value.encode(), at, byte)).is_none()
    }

    #[test]
    fn headers_have_zeros_from_byte_24(rt: HostRuntime) -> Result<(), Fail> {
        assert!(rt; is_refused(&header(), 24, 1));
        assert!(rt; is_refused(&header(), 511, 1));
        assert!(rt; is_refused(&header(), 0, 2), "another sort");
        assert!(rt; !is_refused(&header(), 23, 65), "another number of pages");
        let read = Header::decode(&header().encode()).ok_or("no header")?;
        assert!(rt; read.first_free == 9 && read.free == 55 && read.pages == 64);
        Ok(())
    }

    #[test]
    fn leaves_have_zeros_between_and_past_their_parts(rt: HostRuntime) -> Result<(), Fail> {
        assert!(rt; is_refused(&leaf(), 1, 1));
        assert!(rt; is_refused(&leaf(), 8, 1));
        assert!(rt;
            is_refused(&leaf(), 32 + 51, 1),
            "a third inline posting at count 2"
        );
        assert!(rt; is_refused(&leaf(), 32 + 27, 4), "four inline postings");
        assert!(rt;
            is_refused(&leaf(), 32 + 24, 1),
            "an inline count near 2^24"
        );
        assert!(rt; is_refused(&leaf(), 3, 9), "nine entries");
        assert!(rt; is_refused(&leaf(), 2, 255), "many entries");
        assert!(rt; is_refused(&leaf(), 3, 4), "an entry past the count");
        assert!(rt; !is_refused(&leaf(), 32 + 43, 8), "another second posting");
        let read = Leaf::decode(&leaf().encode()).ok_or("no leaf")?;
        assert!(rt; read.next == 4 && read.entries.len() == 5);
        Ok(())
    }

    #[test]
    fn inner_nodes_have_zeros_in_row_0_and_past_their_rows(rt: HostRuntime) -> Result<(), Fail> {
        assert!(rt; is_refused(&inner(), 36, b'a'), "a key in row 0");
        assert!(rt; is_refused(&inner(), 500, 1));
        assert!(rt; is_refused(&inner(), 4, 1));
        assert!(rt; is_refused(&inner(), 3, 0), "no child");
        assert!(rt; is_refused(&inner(), 3, 17), "17 children");
        assert!(rt; !is_refused(&inner(), 35, 9), "another first child");
        let read = InnerNode::decode(&inner().encode()).ok_or("no node")?;
        assert!(rt; read.first == 3 && read.rows.len() == 7);
        Ok(())
    }

    #[test]
    fn records_and_free_pages_have_zeros_past_their_parts(rt: HostRuntime) -> Result<(), Fail> {
        assert!(rt; is_refused(&record(), 511, 1));
        assert!(rt; is_refused(&record(), 3, 0), "no posting");
        assert!(rt; is_refused(&record(), 3, 61), "61 postings");
        assert!(rt; !is_refused(&record(), 7, 9), "another next record");
        let free = Free { next: 12 };
        assert!(rt; is_refused(&free, 1, 1));
        assert!(rt; is_refused(&free, 8, 1));
        assert!(rt; Free::decode(&free.encode()[0..511]).is_none(), "511 bytes");
        let read = Free::decode(&free.encode()).ok_or("no free page")?;
        assert!(rt; read.next == 12);
        Ok(())
    }

    // Each argument is taken by value.
    fn are_both<P: Copy + PartialEq>(one: P, other: P, value: P) -> bool {
        one == value && other == value
    }

    #[test]
    fn typed_pages_are_copied(rt: HostRuntime) -> Result<(), Fail> {
        let (entry, leaf, inner, record) = (entry(), leaf(), inner(), record());
        assert!(rt; are_both(entry, entry, entry.clone()?));
        assert!(rt; are_both(leaf, leaf, leaf.clone()?));
        assert!(rt; are_both(inner, inner, inner.clone()?));
        assert!(rt; are_both(record, record, record.clone()?));
        Ok(())
    }

    #[test]
    fn few_values_come_and_go(rt: HostRuntime) -> Result<(), Fail> {
        let mut few: Few<u64, 3> = Few::default();
        assert!(rt; few.is_empty() && !few.is_full());
        few.push(7);
        few.insert(0, 9);
        few.insert(1, 8);
        assert!(rt; few.is_full() && few == Few::from([9, 8, 7]));
        few.set(2, 5);
        assert_eq!(rt; few.remove(0), 9);
        assert!(rt; few[0] == 8 && few[1] == 5 && few.len() == 2);
        let printed = format!(in rt.alloc(); "{few:?}")?;
        assert_eq!(rt; printed.as_str(), "[8, 5]");
        few.truncate(1);
        few.truncate(3);
        assert_eq!(rt; few.as_slice(), [8].as_slice());
        Ok(())
    }

    #[test]
    fn byte_0_tells_the_sort(rt: HostRuntime) {
        assert_eq!(rt; PageSort::of(&leaf().encode()), Some(PageSort::Leaf));
        assert_eq!(rt; PageSort::of(&record().encode()), Some(PageSort::Record));
        assert!(rt; PageSort::of(&[0, 1]).is_none());
        assert!(rt; PageSort::of(&[]).is_none());
    }
}
