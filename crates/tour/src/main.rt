//! A bookkeeper's round, from narrations to a corrected book. Each action and each answer is printed.
#![tactic(auto)]

use batches::{Line, OpenBatch, Sign, check, reverse};
use desk::word_batch;
use keys::NarrationWord;
use narration::{Reader, Token};
use numbers::BigEndian;
use plain_book::{BookOf, Failure};
use std::alloc::AllocError;

/// Free pages that merges are judged by: those of a new index over 64 pages.
const FREE: usize = 62;

/// A key field.
type Key = [u8; 24];

/// A book whose keys are words of narrations.
type WordBook = BookOf<NarrationWord>;

// The letters of a key, up to its zeros.
fn letters(rt: &HostRuntime, key: &[u8]) -> Result<String, AllocError> {
    key.iter()
        .filter(|b| **b != 0 && b.is_ascii())
        .map(|b| char::from(*b))
        .collect(rt.alloc())
}

// A batch file of one line.
fn file_of(rt: &HostRuntime, key: &Key, sign: Sign, number: u64) -> Result<Vec<u8>, AllocError> {
    word_batch(rt.alloc(), key, Line { sign, number })
}

fn tell(rt: &HostRuntime, failure: Failure) -> anyhow::Result<()> {
    println!(rt; "  {failure}")?;
    Ok(())
}

// Merges an open batch and ends it either way: merged, or refused and withdrawn.
fn merge(rt: &HostRuntime, book: &mut WordBook, batch: OpenBatch) -> anyhow::Result<()> {
    let answer = book.merge(rt.alloc(), FREE, &batch);
    let lines = batch.withdraw();
    match answer {
        Ok(keys) => println!(rt; "  merged: {lines} line, {keys} words with postings")?,
        Err(failure) => tell(rt, failure)?,
    }
    Ok(())
}

// Opens a file and merges it; a file that does not open is refused.
fn book_file(rt: &HostRuntime, book: &mut WordBook, file: &[u8]) -> anyhow::Result<()> {
    match check(file) {
        Ok(()) => merge(rt, book, OpenBatch::make(file)),
        Err(refusal) => tell(rt, refusal.into()),
    }
}

// Posts a number under each word of a narration.
fn post_narration(
    rt: &HostRuntime,
    book: &mut WordBook,
    narration: &[u8],
    number: u64,
) -> anyhow::Result<()> {
    for token in Reader::new(narration) {
        if let Some(key) = token.key() {
            let word = letters(rt, &key)?;
            println!(rt; "post {number} under {word}")?;
            let file = file_of(rt, &key, Sign::Posting, number)?;
            book_file(rt, book, &file)?;
        }
    }
    Ok(())
}

// Prints the words and gaps of a narration.
fn show_words(rt: &HostRuntime, narration: &[u8]) -> anyhow::Result<()> {
    for token in Reader::new(narration) {
        match token {
            Token::Word { part, place } => {
                let word = letters(rt, part)?;
                println!(rt; "  word at {place}: {word}")?;
            }
            Token::Gap { part, place } => {
                let len = part.len();
                println!(rt; "  gap at {place}: {len} bytes")?;
            }
        }
    }
    Ok(())
}

// Prints the postings of a word, the newest first.
fn show_postings(rt: &HostRuntime, book: &WordBook, key: &Key) -> anyhow::Result<()> {
    let word = letters(rt, key)?;
    let mut list = [0u64; 4];
    match book.lookup(rt.alloc(), key, &mut list) {
        Ok(looked) => {
            let total = looked.total;
            println!(rt; "look up {word}: total {total}, list {list:?}")?;
        }
        Err(failure) => tell(rt, failure)?,
    }
    Ok(())
}

// Prints the first rows of a listing of all words. The count stands beside the buffer, since `take` needs no proof that so many fit.
fn show_rows(rt: &HostRuntime, rows: usize, buffer: &[u8; 320]) -> anyhow::Result<()> {
    let (all, _) = buffer.as_chunks::<32>();
    for row in all.iter().take(rows) {
        let word = letters(rt, &row[..24])?;
        let number = u64::read_at(row, 24);
        println!(rt; "  {word} {number}")?;
    }
    Ok(())
}

// Lists all words, a row for each posting.
fn list_all(rt: &HostRuntime, book: &WordBook) -> anyhow::Result<()> {
    let first: Key = *b"0\0\0\0\0\0\0\0\0\0\0\0\0\0\0\0\0\0\0\0\0\0\0\0";
    let last: Key = *b"zzzzzzzzzzzzzzzzzzzzzzzz";
    let mut buffer = [0u8; 320];
    match book.list(rt.alloc(), &first, &last, 0, &mut buffer) {
        Ok(listing) => {
            let total = listing.total;
            println!(rt; "list all words: {total} rows")?;
            show_rows(rt, listing.rows, &buffer)?;
        }
        Err(failure) => tell(rt, failure)?,
    }
    Ok(())
}

// Damages a file in two ways, and shows how each is refused.
fn damage(rt: &HostRuntime, book: &mut WordBook, key: &Key) -> anyhow::Result<()> {
    let mut file = file_of(rt, key, Sign::Posting, 11)?;
    println!(rt; "merge a file whose sign byte is damaged")?;
    if let Some(sign) = file.get_mut(48) {
        *sign = b'*';
    }
    book_file(rt, book, &file)?;
    println!(rt; "merge a file cut short by a byte")?;
    let _last = file.pop();
    book_file(rt, book, &file)
}

// Opens a batch and withdraws it unmerged.
fn withdraw(rt: &HostRuntime, key: &Key) -> anyhow::Result<()> {
    let file = file_of(rt, key, Sign::Posting, 12)?;
    println!(rt; "open a batch and withdraw it")?;
    if let Err(refusal) = check(&file) {
        return tell(rt, refusal.into());
    }
    let lines = OpenBatch::make(&file).withdraw();
    println!(rt; "  withdrawn: {lines} line")?;
    Ok(())
}

// Cancels a posting, cancels it again, and takes the cancellation back by its reversal.
fn correct(rt: &HostRuntime, book: &mut WordBook, key: &Key) -> anyhow::Result<()> {
    let mut file = file_of(rt, key, Sign::Cancelling, 7)?;
    println!(rt; "cancel 7")?;
    book_file(rt, book, &file)?;
    println!(rt; "cancel 7 again")?;
    book_file(rt, book, &file)?;
    show_postings(rt, book, key)?;
    println!(rt; "merge the reversal of the cancellation")?;
    match reverse(&mut file) {
        Ok(()) => book_file(rt, book, &file)?,
        Err(refusal) => tell(rt, refusal.into())?,
    }
    show_postings(rt, book, key)
}

fn round(rt: &HostRuntime) -> anyhow::Result<()> {
    let mut book = WordBook::new(rt.alloc());
    let rent: Key = *b"rent\0\0\0\0\0\0\0\0\0\0\0\0\0\0\0\0\0\0\0\0";
    println!(rt; "read the narration: Rent, March")?;
    show_words(rt, b"Rent, March")?;
    post_narration(rt, &mut book, b"Rent, March", 7)?;
    post_narration(rt, &mut book, b"RENT (April)", 9)?;
    show_postings(rt, &book, &rent)?;
    list_all(rt, &book)?;
    correct(rt, &mut book, &rent)?;
    damage(rt, &mut book, &rent)?;
    withdraw(rt, &rent)
}

fn main(rt: HostRuntime) -> anyhow::Result<()> {
    round(&rt)
}
