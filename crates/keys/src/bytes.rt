//! Walks over the bytes of a field.

ghost use Rattle.std.specs.Prelude.{◌≡◌, ◌≤◌, length};
ghost use Rattle.keys.specs.Fields.{zeros_only};
ghost use Rattle.keys.specs.Words.{letter, front};

/// Whether a byte is one out of a to z and 0 to 9.
fn is_letter(b: u8) -> bool
    ensures tells_letters { result ≡ letter b }
{
    matches!(b, b'a'..=b'z' | b'0'..=b'9')
}

/// How many letters stand in front.
pub(crate) fn letters(bytes: &[u8]) -> usize
    ensures are_counted { result ≡ front bytes.now }
    ensures are_within { result ≤ length bytes.now }
{
    bytes
        .iter()
        .position(|b| !is_letter(*b))
        .unwrap_or(bytes.len())
}

/// Whether each byte is 0, as the end of most fields is.
pub fn are_zeros(bytes: &[u8]) -> bool
    ensures tells_zeros { result ≡ zeros_only bytes.now }
{
    bytes.iter().all(|b| *b == 0)
}
