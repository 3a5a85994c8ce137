//! Tests of booklist's text, on inputs from anyone.
#![tactic(auto)]

#[cfg(test)]
mod tests {
    use book_listing::{ROOM, booklist, worked_texts_hold};
    use drafts::{LineDraft, RowDraft, add_line, add_row, file, head, line, row};
    use refusals::Refusal;
    use std::alloc::Global;
    use std::process::Abort;
    use std::test::Fail;

    const LARGEST: u64 = 9_223_372_036_854_775_807;

    // A batch of narration words with these rows and lines, lawful or not.
    fn words(
        rt: &impl Abort,
        heap: Global,
        rows: &[RowDraft<'_>],
        lines: &[LineDraft],
    ) -> Result<Vec<u8>, Fail> {
        assert!(rt; rows.len() < 100 && lines.len() < 100);
        let counts = [rows.len() as u32, lines.len() as u32];
        Ok(file(heap, 1, counts, rows, lines)?)
    }

    // Whether these bytes are what stands in front, and all behind them is untouched.
    fn stands_there(out: &[u8], text: &[u8]) -> bool {
        out.strip_prefix(text)
            .is_some_and(|rest| rest.iter().all(|byte| *byte == 0xaa))
    }

    fn prints(input: &[u8], text: &[u8]) -> bool {
        let mut out = [0xaau8; 400];
        let count = booklist(input, &mut out);
        count == Ok(text.len()) && stands_there(&out, text)
    }

    #[test]
    fn worked_texts(rt: HostRuntime) {
        assert!(rt; worked_texts_hold());
    }

    #[test]
    fn accepted_batches(rt: HostRuntime) -> Result<(), Fail> {
        let rows = [row(b"bank", 0, 1), row(b"rent", 1, 2)];
        let lines = [line(b'+', 9), line(b'+', 43), line(b'+', 45)];
        let file = words(&rt, rt.alloc(), &rows, &lines)?;
        assert!(rt; prints(&file, b"0 3\nbank 9\nrent 45\nrent 43\n"));
        assert!(rt; prints(&words(&rt, rt.alloc(), &[], &[])?, b"0 0\n"));
        Ok(())
    }

    #[test]
    fn a_full_listing_takes_364_bytes(rt: HostRuntime) -> Result<(), Fail> {
        let mut file = head(rt.alloc(), 1, [8, 8])?;
        let mut text = b"0 8\n".to_vec(rt.alloc())?;
        for i in 0..8u32 {
            let word = [b'a' + i as u8; 24];
            add_row(&mut file, row(&word, i, 1))?;
            text.extend_from_slice(&word)?;
            text.extend_from_slice(b" 9223372036854775807\n")?;
        }
        for _ in 0..8 {
            add_line(&mut file, line(b'+', LARGEST))?;
        }
        assert!(rt; text.len() == ROOM);
        assert!(rt; prints(&file, &text));
        Ok(())
    }

    #[test]
    fn inputs_without_the_form(rt: HostRuntime) -> Result<(), Fail> {
        assert!(rt; prints(&vec![in rt.alloc(); b'X'; 20_000]?, b"2 3\n"));
        assert!(rt; prints(&vec![in rt.alloc(); b'X'; 16_385]?, b"2 3\n"));
        assert!(rt; prints(&vec![in rt.alloc(); 0; 16_384]?, b"2 1\n"));
        assert!(rt; prints(b"", b"2 1\n"));
        assert!(rt; prints(&head(rt.alloc(), 1, [0, 1025])?, b"2 2\n"));
        assert!(rt; prints(&head(rt.alloc(), 1, [1, 0])?, b"2 3\n"));
        assert!(rt; prints(&head(rt.alloc(), 77, [0, 0])?, b"3 0\n"));
        Ok(())
    }

    #[test]
    fn rows_that_do_not_follow(rt: HostRuntime) -> Result<(), Fail> {
        let lines = [line(b'+', 1), line(b'+', 2), line(b'+', 3)];
        let none = words(&rt, rt.alloc(), &[], &lines)?;
        assert!(rt; none.len() == 43);
        assert!(rt; prints(&none, b"2 4\n"));
        let overlap = [row(b"bank", 0, 2), row(b"rent", 1, 2)];
        assert!(rt; prints(&words(&rt, rt.alloc(), &overlap, &lines)?, b"2 4\n"));
        let wraps = [row(b"bank", 0, u32::MAX), row(b"rent", u32::MAX, 2)];
        let file = words(&rt, rt.alloc(), &wraps, &[line(b'+', 1)])?;
        assert!(rt; file.len() == 89);
        assert!(rt; prints(&file, b"2 4\n"));
        Ok(())
    }

    #[test]
    fn keys_and_lines(rt: HostRuntime) -> Result<(), Fail> {
        let good = [line(b'+', 1)];
        assert!(rt;
            prints(
                &words(&rt, rt.alloc(), &[row(b"a\0b", 0, 1)], &good)?,
                b"4 0\n"
            )
        );
        let rows = [row(b"rent", 0, 1), row(b"TAX", 1, 1)];
        let cancels = [line(b'-', 3), line(b'+', 1)];
        assert!(rt; prints(&words(&rt, rt.alloc(), &rows, &cancels)?, b"4 1\n"));
        let bad_sign = [line(b'+', 9), line(b'*', 3)];
        assert!(rt; prints(&words(&rt, rt.alloc(), &rows, &bad_sign)?, b"5 1\n"));
        Ok(())
    }

    #[test]
    fn postings_that_find_no_room(rt: HostRuntime) -> Result<(), Fail> {
        let mut lines = [line(b'+', 1); 9];
        for (i, cell) in lines.iter_mut().enumerate() {
            cell.number = i as u64 + 1;
        }
        let rent = row(b"rent", 0, 9);
        assert!(rt; prints(&words(&rt, rt.alloc(), &[rent], &lines)?, b"8 0\n"));
        let mut absent = words(&rt, rt.alloc(), &[rent, row(b"tax", 9, 1)], &lines)?;
        assert!(rt; absent.len() > 15);
        absent[15] = 10;
        add_line(&mut absent, line(b'-', 1))?;
        assert!(rt; prints(&absent, b"7 9\n"));
        Ok(())
    }

    #[test]
    fn short_buffers(rt: HostRuntime) {
        let mut short = [0xaau8; 363];
        let refused = booklist(b"", &mut short);
        assert!(rt; matches!(refused, Err(Refusal::Buffer(363))));
        assert!(rt; stands_there(&short, b""));
        let mut none = [0u8; 0];
        assert!(rt; matches!(booklist(b"", &mut none), Err(Refusal::Buffer(0))));
        let mut least = [0xaau8; 364];
        assert!(rt; matches!(booklist(b"", &mut least), Ok(4)));
        assert!(rt; stands_there(&least, b"2 1\n"));
    }
}
