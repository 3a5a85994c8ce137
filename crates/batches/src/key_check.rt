ghost use Rattle.std.specs.Prelude.{◌≡◌, true, ◌&&◌, None, IfSome, if◌then◌else◌};
ghost use Rattle.std.specs.Option.{option_copied};
ghost use Rattle.refusals.specs.Refusals.{answer_of};
ghost use Rattle.batches.specs.Reading.{kind_code, rows_in};
ghost use Rattle.batches.specs.KeyCheck.{above, keys_answer, kind_and_keys_answer};

use crate::open::OpenBatch;
use keys::KeyKind;
use refusals::Refusal;
use std::cmp::Ordering;

// The key of row i, lawful and above the one of the row before, if there is one.
fn next_key<'b, K: KeyKind>(
    i: u32,
    before: Option<&[u8]>,
    key: &'b [u8],
) -> Result<&'b [u8], Refusal>
    requires { IfSome before (λ last. K.kind.lawful last.now ≡ true) }
    ensures { result ≡ (if K.kind.lawful key.now && above K.kind (option_copied before.entry) key.now then Ok key.entry else Err (Refusal.Key i)) }
{
    let Some(part) = K::check(key) else {
        return Err(Refusal::Key(i));
    };
    if let Some(last) = before
        && K::compare(last, part) != Ordering::Less
    {
        return Err(Refusal::Key(i));
    }
    Ok(part)
}

// The first row whose key is unlawful or not above the one before.
fn check_keys<K: KeyKind>(batch: &OpenBatch) -> Result<(), Refusal>
    ensures { answer_of result ≡ keys_answer K.kind 0 None (rows_in batch.now.bytes.now) }
{
    let mut before = None;
    for (i, row) in batch.rows().enumerate() {
        before = Some(next_key::<K>(i as u32, before, row.key)?);
    }
    Ok(())
}

/// The kind code and the keys of a batch against a key kind. It needs no index, and leaves the batch open.
pub fn check_kind_and_keys<K: KeyKind>(batch: &OpenBatch) -> Result<(), Refusal>
    ensures refused_for_the_kind_then_for_the_first_bad_row { answer_of result ≡ kind_and_keys_answer K.kind (kind_code batch.now.bytes.now) (rows_in batch.now.bytes.now) }
{
    if batch.kind_code() != K::kind_code() {
        return Err(Refusal::Kind);
    }
    check_keys::<K>(batch)
}
