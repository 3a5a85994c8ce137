//! Batch files written from rows and lines as they shall stand, lawful or not.
#![tactic(auto)]

ghost use Rattle.std.specs.Prelude.{◌≡◌, ◌++◌, IfOk, OnOk, slice_index};
ghost use Rattle.std.specs.List.{flat_map};
ghost use Rattle.batches.specs.Layout.{head_bytes};
ghost use Rattle.drafts.specs.Drafted.{field_of, row_drafted, line_drafted};

use std::alloc::{AllocError, Global};

/// A row as it shall stand: a key, cut or filled with zeros to 24 bytes, the number of its first line and its count of lines.
#[derive(Clone, Copy)]
pub struct RowDraft<'a> {
    pub key: &'a [u8],
    pub first: u32,
    pub count: u32,
}

/// A line as it shall stand: any sign byte, any number.
#[derive(Clone, Copy)]
pub struct LineDraft {
    pub sign: u8,
    pub number: u64,
}

/// A row with this key, first line and count.
pub fn row(key: &[u8], first: u32, count: u32) -> RowDraft<'_>
    ensures holds_these { result ≡ record { key = key.entry; first = first; count = count } }
{
    RowDraft { key, first, count }
}

/// A line with this sign byte and number.
pub fn line(sign: u8, number: u64) -> LineDraft
    ensures holds_these { result ≡ record { sign = sign; number = number } }
{
    LineDraft { sign, number }
}

/// The 16 bytes in front: the letters, a kind code and both counts.
#[tactic(auto, using(numbers::proofs::Spelling::four_bytes_of))]
pub fn head(heap: Global, kind: u8, counts: [u32; 2]) -> Result<Vec<u8>, AllocError>
    ensures is_the_head { IfOk result (λ v. v.items ≡ head_bytes kind (slice_index counts 0) (slice_index counts 1)) }
{
    let mut bytes = b"BTCH".to_vec(heap)?;
    bytes.extend_from_slice(&[kind, 0, 0, 0])?;
    bytes.extend_from_slice(&counts[0].to_be_bytes())?;
    bytes.extend_from_slice(&counts[1].to_be_bytes())?;
    Ok(bytes)
}

// A key cut or filled with zeros.
fn field(key: &[u8]) -> [u8; 24]
    ensures { result ≡ field_of key.now }
{
    let mut field = [0; 24];
    let len = key.len().min(24);
    field[..len].copy_from_slice(&key[..len]);
    field
}

/// Adds the 32 bytes of a row.
#[tactic(auto, using(numbers::proofs::Spelling::four_bytes_of))]
pub fn add_row(bytes: &mut Vec<u8>, row: RowDraft) -> Result<(), AllocError>
    ensures adds_its_bytes { OnOk result (bytes.new.items ≡ bytes.old.items ++ row_drafted row.entry) }
{
    bytes.extend_from_slice(&field(row.key))?;
    bytes.extend_from_slice(&row.first.to_be_bytes())?;
    bytes.extend_from_slice(&row.count.to_be_bytes())?;
    Ok(())
}

/// Adds the nine bytes of a line.
pub fn add_line(bytes: &mut Vec<u8>, line: LineDraft) -> Result<(), AllocError>
    ensures adds_its_bytes { OnOk result (bytes.new.items ≡ bytes.old.items ++ line_drafted line) }
{
    bytes.push(line.sign)?;
    bytes.extend_from_slice(&line.number.to_be_bytes())?;
    Ok(())
}

// Adds rows one after another. Beside `add_lines`: a trait for both would be longer than the two.
fn add_rows(bytes: &mut Vec<u8>, rows: &[RowDraft]) -> Result<(), AllocError>
    ensures { OnOk result (bytes.new.items ≡ bytes.old.items ++ flat_map row_drafted rows.now) }
{
    for row in rows {
        add_row(bytes, *row)?;
    }
    Ok(())
}

// Adds lines one after another.
fn add_lines(bytes: &mut Vec<u8>, lines: &[LineDraft]) -> Result<(), AllocError>
    ensures { OnOk result (bytes.new.items ≡ bytes.old.items ++ flat_map line_drafted lines.now) }
{
    for line in lines {
        add_line(bytes, *line)?;
    }
    Ok(())
}

/// A file of these rows and lines, with a kind code and counts that may be others than theirs.
pub fn file(
    heap: Global,
    kind: u8,
    counts: [u32; 2],
    rows: &[RowDraft],
    lines: &[LineDraft],
) -> Result<Vec<u8>, AllocError>
    ensures is_head_rows_and_lines { IfOk result (λ v. v.items ≡ head_bytes kind (slice_index counts 0) (slice_index counts 1) ++ (flat_map row_drafted rows.now ++ flat_map line_drafted lines.now)) }
{
    let mut bytes = head(heap, kind, counts)?;
    add_rows(&mut bytes, rows)?;
    add_lines(&mut bytes, lines)?;
    Ok(bytes)
}
