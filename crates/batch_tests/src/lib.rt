//! Tests of batch files: hostile headers, rows and lines, the key check and the reversal.
#![tactic(auto)]

#[cfg(test)]
mod tests {
    use batches::{Line, OpenBatch, Sign, check as check_batch, check_kind_and_keys, reverse};
    use drafts::{file, line, row};
    use keys::{KeyKind, NarrationWord};
    use refusals::Refusal;
    use std::alloc::{AllocError, Global};
    use std::test::Fail;

    // A refusal as its number and its place.
    fn told(answer: Result<(), Refusal>) -> Result<(), (u8, usize)> {
        answer.map_err(|refusal| (refusal.number(), refusal.place()))
    }

    // The answer of the key check, and the batch withdrawn.
    fn check_keys<K: KeyKind>(bytes: &[u8]) -> Result<(), Refusal> {
        check_batch(bytes)?;
        let batch = OpenBatch::make(bytes);
        let answer = check_kind_and_keys::<K>(&batch);
        batch.withdraw();
        answer
    }

    #[test]
    fn forms_fail_at_their_first_step(rt: HostRuntime) {
        assert_eq!(rt; told(check_batch(b"")), Err((2, 1)));
        assert_eq!(rt;
            told(check_batch(b"BTCH\x01\0\0\0\0\0\0\0\0\0\0")),
            Err((2, 1))
        );
        assert_eq!(rt;
            told(check_batch(b"BTCI\x01\0\0\0\0\0\0\0\0\0\0\0")),
            Err((2, 1))
        );
        assert_eq!(rt;
            told(check_batch(b"BTCH\x01\0\0\0\0\0\0\0\0\0\0\0")),
            Ok(())
        );
        assert_eq!(rt;
            told(check_batch(b"BTCH\x4d\0\0\0\0\0\0\0\0\0\0\0")),
            Ok(())
        );
        assert_eq!(rt;
            told(check_batch(b"BTCH\x01\x01\0\0\0\0\0\0\0\0\0\0\0")),
            Err((2, 2))
        );
        assert_eq!(rt;
            told(check_batch(b"BTCH\x01\0\0\0\0\0\x04\x01\0\0\0\0")),
            Err((2, 2))
        );
        assert_eq!(rt;
            told(check_batch(b"BTCH\x01\0\0\0\xff\xff\xff\xff\xff\xff\xff\xff")),
            Err((2, 2))
        );
        assert_eq!(rt;
            told(check_batch(b"BTCH\x01\0\0\0\0\0\x04\0\0\0\x04\0")),
            Err((2, 3))
        );
        assert_eq!(rt;
            told(check_batch(b"BTCH\x01\0\0\0\0\0\0\0\0\0\0\x01")),
            Err((2, 3))
        );
    }

    #[test]
    fn rows_have_to_follow(rt: HostRuntime) -> Result<(), Fail> {
        let heap = rt.alloc();
        let one = [line(b'+', 7)];
        let three = [line(b'+', 7), line(b'+', 8), line(b'-', 9)];
        let gap = [row(b"rent", 1, 1)];
        let empty = [row(b"rent", 0, 0)];
        let short = [row(b"rent", 0, 1)];
        let overlap = [row(b"bank", 0, 2), row(b"rent", 1, 1)];
        let wrapping = [row(b"bank", 0, u32::MAX), row(b"rent", u32::MAX, 2)];
        assert_eq!(rt;
            told(check_batch(&file(heap, 1, [0, 3], &[], &three)?)),
            Err((2, 4))
        );
        assert_eq!(rt;
            told(check_batch(&file(heap, 1, [1, 1], &gap, &one)?)),
            Err((2, 4))
        );
        assert_eq!(rt;
            told(check_batch(&file(heap, 1, [1, 0], &empty, &[])?)),
            Err((2, 4))
        );
        assert_eq!(rt;
            told(check_batch(&file(heap, 1, [1, 3], &short, &three)?)),
            Err((2, 4))
        );
        assert_eq!(rt;
            told(check_batch(&file(heap, 1, [2, 3], &overlap, &three)?)),
            Err((2, 4))
        );
        assert_eq!(rt;
            told(check_batch(&file(heap, 1, [2, 1], &wrapping, &one)?)),
            Err((2, 4)),
            "a sum that wraps"
        );
        Ok(())
    }

    #[test]
    fn lines_fail_at_the_first(rt: HostRuntime) -> Result<(), Fail> {
        let heap = rt.alloc();
        let last = u64::MAX / 2;
        let rows = [row(b"bank", 0, 1), row(b"rent", 1, 1)];
        let both = [row(b"bank", 0, 2)];
        assert_eq!(rt;
            told(check_batch(&file(heap, 1, [2, 2], &rows, &[line(b'+', 9), line(b'-', 3)])?)),
            Ok(())
        );
        assert_eq!(rt;
            told(check_batch(&file(heap, 1, [2, 2], &rows, &[line(b'+', 9), line(b'*', 3)])?)),
            Err((5, 1))
        );
        assert_eq!(rt;
            told(check_batch(&file(heap, 1, [2, 2], &rows, &[line(b'+', last), line(b'+', 0)])?)),
            Err((5, 1))
        );
        assert_eq!(rt;
            told(check_batch(&file(
                heap,
                1,
                [2, 2],
                &rows,
                &[line(b'+', last + 1), line(b'+', 0)]
            )?,)),
            Err((5, 0))
        );
        assert_eq!(rt;
            told(check_batch(&file(heap, 1, [1, 2], &both, &[line(b'+', 7), line(b'-', 7)])?)),
            Err((5, 1))
        );
        assert_eq!(rt;
            told(check_batch(&file(heap, 1, [1, 2], &both, &[line(b'+', 7), line(b'-', 6)])?)),
            Err((5, 1))
        );
        assert_eq!(rt;
            told(check_batch(&file(heap, 1, [1, 2], &both, &[line(b'-', 6), line(b'+', 7)])?)),
            Ok(())
        );
        Ok(())
    }

    #[test]
    fn keys_are_checked_apart(rt: HostRuntime) -> Result<(), Fail> {
        let heap = rt.alloc();
        let lines = [line(b'+', 1), line(b'+', 2)];
        let good = [row(b"bank", 0, 1), row(b"rent", 1, 1)];
        let same = [row(b"rent", 0, 1), row(b"rent", 1, 1)];
        let shout = [row(b"bank", 0, 1), row(b"TAX", 1, 1)];
        let inside = [row(b"a\0b", 0, 1), row(b"rent", 1, 1)];
        assert_eq!(rt;
            told(check_keys::<NarrationWord>(&file(heap, 1, [2, 2], &good, &lines)?)),
            Ok(())
        );
        assert_eq!(rt;
            told(check_keys::<NarrationWord>(&file(heap, 1, [2, 2], &same, &lines)?)),
            Err((4, 1))
        );
        assert_eq!(rt;
            told(check_keys::<NarrationWord>(&file(heap, 1, [2, 2], &shout, &lines)?)),
            Err((4, 1))
        );
        assert_eq!(rt;
            told(check_keys::<NarrationWord>(&file(heap, 1, [2, 2], &inside, &lines)?)),
            Err((4, 0))
        );
        assert_eq!(rt;
            told(check_keys::<NarrationWord>(b"BTCH\x02\0\0\0\0\0\0\0\0\0\0\0")),
            Err((3, 0))
        );
        Ok(())
    }

    #[test]
    fn reversal_turns_the_signs_alone(rt: HostRuntime) -> Result<(), Fail> {
        let heap = rt.alloc();
        let rows = [row(b"rent", 0, 2)];
        let plain = file(heap, 1, [1, 2], &rows, &[line(b'+', 43), line(b'-', 45)])?;
        let mut turned = file(heap, 1, [1, 2], &rows, &[line(b'+', 43), line(b'-', 45)])?;
        assert_eq!(rt; told(reverse(&mut turned)), Ok(()));
        assert!(rt; turned == file(heap, 1, [1, 2], &rows, &[line(b'-', 43), line(b'+', 45)])?);
        assert_eq!(rt; told(reverse(&mut turned)), Ok(()));
        assert!(rt; turned == plain);
        let mut broken = file(heap, 1, [1, 2], &rows, &[line(b'+', 43), line(b'x', 45)])?;
        assert_eq!(rt; told(reverse(&mut broken)), Err((5, 1)));
        assert!(rt; broken == file(heap, 1, [1, 2], &rows, &[line(b'+', 43), line(b'x', 45)])?);
        Ok(())
    }

    #[test]
    fn rows_and_lines_are_read_back(rt: HostRuntime) -> Result<(), Fail> {
        let heap = rt.alloc();
        let rows = [row(b"bank", 0, 1), row(b"rent", 1, 2)];
        let bytes = file(
            heap,
            1,
            [2, 3],
            &rows,
            &[line(b'+', 9), line(b'-', 3), line(b'+', 4)],
        )?;
        assert_eq!(rt; told(check_batch(&bytes)), Ok(()));
        if let Ok(()) = check_batch(&bytes) {
            let batch = OpenBatch::make(&bytes);
            let row = batch.row(1).map(|row| (row.first, row.count));
            let line = batch.line(2);
            batch.withdraw();
            assert_eq!(rt; row, Some((1, 2)));
            let posting = Line {
                sign: Sign::Posting,
                number: 4,
            };
            assert_eq!(rt; line, Some(posting));
        }
        Ok(())
    }

    // The first lines of the rows.
    fn firsts_of(heap: Global, batch: &OpenBatch) -> Result<Vec<u32>, AllocError> {
        let mut firsts = Vec::new(heap);
        for row in batch.rows() {
            firsts.push(row.first)?;
        }
        Ok(firsts)
    }

    // The numbers of all lines, those of a row from its last to its first.
    fn numbers_of(heap: Global, batch: &OpenBatch) -> Result<Vec<u64>, AllocError> {
        let mut numbers = Vec::new(heap);
        for row in batch.rows() {
            for line in row.lines().rev() {
                numbers.push(line.number)?;
            }
        }
        Ok(numbers)
    }

    #[test]
    fn rows_and_lines_come_in_order(rt: HostRuntime) -> Result<(), Fail> {
        let heap = rt.alloc();
        let rows = [row(b"bank", 0, 1), row(b"rent", 1, 2)];
        let lines = [line(b'+', 9), line(b'-', 3), line(b'+', 4)];
        let bytes = file(heap, 1, [2, 3], &rows, &lines)?;
        assert_eq!(rt; told(check_batch(&bytes)), Ok(()));
        if let Ok(()) = check_batch(&bytes) {
            let batch = OpenBatch::make(&bytes);
            let firsts = firsts_of(heap, &batch);
            let numbers = numbers_of(heap, &batch);
            let first_cancelled = batch.lines().position(|line| line.sign == Sign::Cancelling);
            batch.withdraw();
            assert!(rt; firsts?.as_slice() == [0, 1].as_slice());
            assert!(rt; numbers?.as_slice() == [9, 4, 3].as_slice());
            assert_eq!(rt; first_cancelled, Some(1));
        }
        Ok(())
    }
}
