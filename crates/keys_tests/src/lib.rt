//! Tests of the key kinds and of the narration reader.
#![tactic(auto)]

#[cfg(test)]
mod tests {
    use branch_kind::BranchVoucher;
    use keys::{
        AccountAndDay, KeyKind, LawfulKey, NarrationWord, is_below, kinds_are_as_said, lawful_field,
    };
    use narration::{Reader, Token, count_tokens, letter};
    use std::cmp::Ordering;
    use std::test::Fail;

    // The bytes, then zeros up to 24.
    fn padded(bytes: &[u8]) -> [u8; 24] {
        let mut field = [0u8; 24];
        for (slot, b) in field.iter_mut().zip(bytes) {
            *slot = *b;
        }
        field
    }

    // Number and place of the refusal.
    fn refusal<K: KeyKind>(field: &[u8], place: u32) -> Result<(), (u8, usize)> {
        lawful_field::<K>(field, place)
            .map(|_| ())
            .map_err(|refusal| (refusal.number(), refusal.place()))
    }

    fn lawful<K: KeyKind>(bytes: &[u8]) -> bool {
        refusal::<K>(&padded(bytes), 0).is_ok()
    }

    fn rises<K: KeyKind>(a: &[u8], b: &[u8]) -> bool {
        is_below::<K>(&padded(a), &padded(b)) == Some(true)
    }

    fn rises_one_way<K: KeyKind>(a: &[u8], b: &[u8]) -> bool {
        rises::<K>(a, b) && !rises::<K>(b, a)
    }

    #[test]
    fn words_are_letters_then_zeros(rt: HostRuntime) {
        assert!(rt; kinds_are_as_said());
        assert!(rt; lawful::<NarrationWord>(b"rent"));
        assert!(rt; lawful::<NarrationWord>(b"a"));
        assert!(rt; lawful::<NarrationWord>(b"0123456789abcdefghijklmn"));
        assert!(rt; lawful::<NarrationWord>(b"opqrstuvwxyz"));
        assert!(rt; !lawful::<NarrationWord>(b""), "an empty word");
        assert!(rt; !lawful::<NarrationWord>(b"a\0b"), "a zero inside");
        assert!(rt; !lawful::<NarrationWord>(b"\0a"), "a zero in front");
        assert!(rt; !lawful::<NarrationWord>(b"Rent"), "a capital");
        assert!(rt; !lawful::<NarrationWord>(b"re nt"), "a space");
        assert!(rt; !lawful::<NarrationWord>(b"`"));
        assert!(rt; !lawful::<NarrationWord>(b"{"));
        assert!(rt; !lawful::<NarrationWord>(b"/"));
        assert!(rt; !lawful::<NarrationWord>(b":"));
        assert!(rt; !lawful::<NarrationWord>(b"caf\xe9"));
    }

    #[test]
    fn other_lengths_are_refused(rt: HostRuntime) {
        assert_eq!(rt;
            refusal::<NarrationWord>(b"abcdefghijklmnopqrstuvw", 7),
            Err((4, 7))
        );
        assert_eq!(rt;
            refusal::<NarrationWord>(b"abcdefghijklmnopqrstuvwx", 7),
            Ok(())
        );
        assert_eq!(rt;
            refusal::<NarrationWord>(b"abcdefghijklmnopqrstuvwxy", 7),
            Err((4, 7))
        );
        assert_eq!(rt; refusal::<NarrationWord>(b"", 0), Err((4, 0)));
        assert_eq!(rt;
            refusal::<AccountAndDay>(b"\0\0\0\x01\0\0\0\0", 1),
            Err((4, 1))
        );
        assert_eq!(rt; refusal::<AccountAndDay>(b"", 1), Err((4, 1)));
    }

    #[test]
    fn words_compare_byte_by_byte(rt: HostRuntime) {
        assert!(rt; rises_one_way::<NarrationWord>(b"rent", b"rents"));
        assert!(rt; rises_one_way::<NarrationWord>(b"10", b"9"));
        assert!(rt; rises_one_way::<NarrationWord>(b"9", b"a"));
        assert!(rt; !rises::<NarrationWord>(b"rent", b"rent"));
        assert!(rt; !rises::<NarrationWord>(b"", b"rent"), "no word");
    }

    fn compared<K: KeyKind>(a: &[u8], b: &[u8]) -> Option<Ordering> {
        LawfulKey::<K>::check(&padded(a))?.compare_field(&padded(b))
    }

    #[test]
    fn lawful_keys_compare(rt: HostRuntime) {
        assert_eq!(rt;
            compared::<NarrationWord>(b"rent", b"rents"),
            Some(Ordering::Less)
        );
        assert_eq!(rt;
            compared::<NarrationWord>(b"rent", b"rent"),
            Some(Ordering::Equal)
        );
        assert_eq!(rt;
            compared::<NarrationWord>(b"9", b"10"),
            Some(Ordering::Greater)
        );
        assert_eq!(rt; compared::<NarrationWord>(b"rent", b""), None);
        assert_eq!(rt; compared::<NarrationWord>(b"", b"rent"), None);
    }

    #[test]
    fn accounts_start_at_1(rt: HostRuntime) {
        assert!(rt; !lawful::<AccountAndDay>(b""), "account 0");
        assert!(rt;
            !lawful::<AccountAndDay>(b"\0\0\0\0\0\0\0\x01"),
            "account 0, day 1"
        );
        assert!(rt; lawful::<AccountAndDay>(b"\0\0\0\x01"));
        assert!(rt; lawful::<AccountAndDay>(b"\xff\xff\xff\xff\xff\xff\xff\xff"));
        assert!(rt; lawful::<AccountAndDay>(b"\0\0\x01\x90\x80\0\0\0"));
        assert!(rt; lawful::<AccountAndDay>(b"\0\0\x01\x90\x7f\xff\xff\xff"));
        assert!(rt;
            !lawful::<AccountAndDay>(b"\0\0\x01\x90\0\0\0\0\x01"),
            "byte 8 is not 0"
        );
        assert!(rt;
            !lawful::<AccountAndDay>(b"\0\0\x01\x90\0\0\0\0\0\0\0\0\0\0\0\0\0\0\0\0\0\0\0\x01"),
            "byte 23 is not 0"
        );
    }

    #[test]
    fn days_are_signed_and_accounts_are_not(rt: HostRuntime) {
        assert!(rt;
            rises_one_way::<AccountAndDay>(b"\0\0\x01\x90\xff\xff\xff\xff", b"\0\0\x01\x90",),
            "day -1, day 0"
        );
        assert!(rt;
            rises_one_way::<AccountAndDay>(b"\0\0\x01\x90", b"\0\0\x01\x91\xff\xff\xff\xfb",),
            "account 400, 401"
        );
        assert!(rt;
            rises_one_way::<AccountAndDay>(
                b"\0\0\x01\x90\x80\0\0\0",
                b"\0\0\x01\x90\x7f\xff\xff\xff",
            )
        );
        assert!(rt;
            rises_one_way::<AccountAndDay>(
                b"\0\0\x01\x90\x80\0\0\0",
                b"\0\0\x01\x90\xff\xff\xff\xff",
            )
        );
        assert!(rt; rises_one_way::<AccountAndDay>(b"\x7f\xff\xff\xff", b"\x80\0\0\0"));
        assert!(rt; !rises::<AccountAndDay>(b"\0\0\x01\x90", b"\0\0\x01\x90"));
    }

    #[test]
    fn vouchers_go_by_branch_and_number(rt: HostRuntime) {
        assert!(rt; lawful::<BranchVoucher>(b"LINZ\0\0\0\x07"));
        assert!(rt; !lawful::<BranchVoucher>(b"LI7Z\0\0\0\x07"));
        assert!(rt; rises_one_way::<BranchVoucher>(b"GRAZ\0\0\0\x09", b"LINZ\0\0\0\x07"));
        assert!(rt; rises_one_way::<BranchVoucher>(b"LINZ\0\0\0\x07", b"LINZ\0\0\x01\0"));
    }

    fn word(part: &[u8], place: usize) -> Token<'_> {
        Token::Word { part, place }
    }

    fn gap(part: &[u8], place: usize) -> Token<'_> {
        Token::Gap { part, place }
    }

    #[test]
    fn words_and_gaps_come_in_turn(rt: HostRuntime) {
        let mut reader = Reader::new(b"Miete 03/26, Linz");
        assert_eq!(rt; reader.next(), Some(word(b"Miete", 0)));
        assert_eq!(rt; reader.next(), Some(gap(b" ", 5)));
        assert_eq!(rt; reader.next(), Some(word(b"03", 6)));
        assert_eq!(rt; reader.next(), Some(gap(b"/", 8)));
        assert_eq!(rt; reader.next(), Some(word(b"26", 9)));
        assert_eq!(rt; reader.next(), Some(gap(b", ", 11)));
        assert_eq!(rt; reader.next(), Some(word(b"Linz", 13)));
        assert_eq!(rt; reader.next(), None);
        assert_eq!(rt; reader.next(), None, "and again");
    }

    fn is_word(token: &Token<'_>) -> bool {
        matches!(token, Token::Word { .. })
    }

    #[test]
    fn a_reader_is_an_iterator(rt: HostRuntime) {
        let mut end = 0usize;
        for token in Reader::new(b"Miete 03/26, Linz") {
            if let Token::Word { part, place } = token {
                end = place.saturating_add(part.len());
            }
        }
        assert_eq!(rt; end, 17);
        let words = Reader::new(b"Miete 03/26, Linz").filter(|token| is_word(token));
        assert_eq!(rt; words.count(), 4);
    }

    #[test]
    fn short_narrations(rt: HostRuntime) {
        let mut empty = Reader::new(b"");
        assert_eq!(rt; empty.next(), None);
        assert_eq!(rt; count_tokens(b""), 0);
        let mut one_gap = Reader::new(b" .\0\xff ");
        assert_eq!(rt; one_gap.next(), Some(gap(b" .\0\xff ", 0)));
        assert_eq!(rt; one_gap.next(), None);
        assert_eq!(rt; count_tokens(b" a"), 2);
    }

    #[test]
    fn every_byte_alone(rt: HostRuntime) {
        for b in 0..=255u8 {
            let narration = [b];
            let mut reader = Reader::new(&narration);
            let token = if letter(b) != 0 {
                word(&narration, 0)
            } else {
                gap(&narration, 0)
            };
            assert_eq!(rt; reader.next(), Some(token));
            assert_eq!(rt; reader.next(), None);
        }
        let words = (0..=255u8).filter(|b| letter(*b) != 0).count();
        assert_eq!(rt; words, 62);
    }

    #[test]
    fn long_narrations(rt: HostRuntime) -> Result<(), Fail> {
        let one_word = vec![in rt.alloc(); b'a'; 100_000]?;
        assert_eq!(rt; count_tokens(&one_word), 1);
        let turns: Vec<u8> = (0..99_999u32)
            .map(|i| if i % 3 == 0 { b'x' } else { b'-' })
            .collect(rt.alloc())?;
        assert_eq!(rt; count_tokens(&turns), 66_666);
        Ok(())
    }

    // The key of the first token, if it is a lawful field of words.
    fn first_key(narration: &[u8]) -> Option<[u8; 24]> {
        let key = Reader::new(narration).next()?.key()?;
        refusal::<NarrationWord>(&key, 0).is_ok().then_some(key)
    }

    fn key_is(narration: &[u8], key: &[u8]) -> bool {
        first_key(narration) == Some(padded(key))
    }

    #[test]
    fn keys_of_words(rt: HostRuntime) {
        assert!(rt; key_is(b"RENT to pay", b"rent"));
        assert!(rt; key_is(b"A", b"a"));
        assert!(rt;
            key_is(
                b"ABCDEFGHIJKLMNOPQRSTUVWXYZ0123456789",
                b"abcdefghijklmnopqrstuvwx",
            )
        );
        assert!(rt; !key_is(b" rent", b"rent"), "a gap has no key");
        assert!(rt; word(b"no word", 0).key().is_none());
        assert!(rt; word(b"", 0).key().is_none());
    }
}
