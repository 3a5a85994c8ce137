//! Unsigned numbers in byte slices, the most significant byte first.
#![tactic(auto)]

ghost use Rattle.std.specs.Prelude.{◌≡◌, ℕ, ◌^◌, ◌<◌, true};
ghost use Rattle.numbers.specs.BigEndian.{bytes_of, number_at, written, NumbersAndBytesAgree};

/// A number that pages and files hold in so many bytes.
pub trait BigEndian: Copy {
    const WIDTH: usize;

    ghost WIDTH: { ℕ };

    ghost value: { Self → ℕ };

    /// The number in the first bytes, 0 where there are too few.
    fn read_front(bytes: &[u8]) -> Self
        ensures is_the_number_there { value result ≡ number_at WIDTH bytes.now 0 };

    /// Writes the number over the first bytes, and nothing where there are too few.
    fn write_front(self, bytes: &mut [u8])
        ensures is_written_there { bytes.new ≡ written bytes.old 0 (bytes_of WIDTH (value self)) }
        ensures fits { value self < 256 ^ WIDTH };

    /// The number in the bytes from `at` on, 0 where the bytes end before it.
    fn read_at(bytes: &[u8], at: usize) -> Self
        ensures is_the_number_there { value result ≡ number_at WIDTH bytes.now at }
    {
        Self::read_front(&bytes[at.min(bytes.len())..])
    }

    /// Writes the number over the bytes from `at` on, and nothing where they end before it.
    fn write_at(self, bytes: &mut [u8], at: usize)
        ensures is_written_there { bytes.new ≡ written bytes.old at (bytes_of WIDTH (value self)) }
        ensures fits { value self < 256 ^ WIDTH }
    {
        let from = at.min(bytes.len());
        self.write_front(&mut bytes[from..]);
    }
}

// The three are written out: no implementation that a macro of the repository wrote is let through.
impl BigEndian for u16 {
    const WIDTH: usize = 2;

    ghost WIDTH = { 2 };

    ghost value = { λ n. n };

    fn read_front(bytes: &[u8]) -> u16 {
        match bytes.first_chunk::<2>() {
            Some(field) => u16::from_be_bytes(*field),
            None => 0,
        }
    }

    fn write_front(self, bytes: &mut [u8]) {
        if Self::WIDTH <= bytes.len() {
            bytes[..Self::WIDTH].copy_from_slice(&u16::to_be_bytes(self));
        }
    }
}

impl BigEndian for u32 {
    const WIDTH: usize = 4;

    ghost WIDTH = { 4 };

    ghost value = { λ n. n };

    #[tactic(auto, using(crate::proofs::Reading::number_past, crate::proofs::Reading::four_whole))]
    fn read_front(bytes: &[u8]) -> u32 {
        match bytes.first_chunk::<4>() {
            Some(field) => u32::from_be_bytes(*field),
            None => 0,
        }
    }

    fn write_front(self, bytes: &mut [u8]) {
        if Self::WIDTH <= bytes.len() {
            bytes[..Self::WIDTH].copy_from_slice(&u32::to_be_bytes(self));
        }
    }
}

impl BigEndian for u64 {
    const WIDTH: usize = 8;

    ghost WIDTH = { 8 };

    ghost value = { λ n. n };

    fn read_front(bytes: &[u8]) -> u64 {
        match bytes.first_chunk::<8>() {
            Some(field) => u64::from_be_bytes(*field),
            None => 0,
        }
    }

    fn write_front(self, bytes: &mut [u8]) {
        if Self::WIDTH <= bytes.len() {
            bytes[..Self::WIDTH].copy_from_slice(&u64::to_be_bytes(self));
        }
    }
}

/// The number in an array of as many bytes as it has.
pub fn be_bytes<N: BigEndian, const LEN: usize>(n: N) -> [u8; LEN]
    ensures are_its_bytes { N.WIDTH ≡ LEN → result ≡ bytes_of LEN (N.value n) }
{
    let mut bytes = [0; LEN];
    n.write_front(&mut bytes);
    bytes
}

/// Numbers and their bytes go there and back at every width.
pub fn numbers_and_bytes_agree() -> bool
    ensures is_true { result ≡ true }
    ensures agree { NumbersAndBytesAgree }
{
    let agree = true;
    agree
}
