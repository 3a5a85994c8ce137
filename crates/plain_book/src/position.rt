ghost use Rattle.std.specs.Prelude.{◌≡◌, position, ◌==◌};
ghost use Rattle.std.specs.List.{list_any};
ghost use Rattle.book.specs.Books.{has};

// Where a number first stands in a list.
pub fn position(list: &[u64], n: u64) -> Option<usize>
    ensures { result ≡ position (λ m. n == m) list.now }
{
    list.iter().position(|m| n == *m)
}

// Whether a number stands in a list.
pub fn stands_in(list: &[u64], n: u64) -> bool
    ensures { result ≡ has n list.now }
{
    list.contains(&n)
}

// The first record that has a number.
pub fn record_with(records: &[Vec<u64>], n: u64) -> Option<usize>
    ensures { result ≡ position (λ r. has n r.items) records.now }
{
    records
        .iter()
        .position(|record| stands_in(record.as_slice(), n))
}

// Whether a number stands in one of the records.
pub fn stands_in_any(records: &[Vec<u64>], n: u64) -> bool
    ensures { result ≡ list_any (λ r. has n r.items) records.now }
{
    records.iter().any(|record| stands_in(record.as_slice(), n))
}
