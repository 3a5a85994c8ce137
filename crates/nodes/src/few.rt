ghost use Rattle.std.specs.Prelude.{◌≡◌, ◌≤◌, length};

mod changes;
mod values;

/// At most `MOST` values, which lie in the value itself and are copied with it: those in the first `count` of `MOST` places.
#[derive(Copy)]
pub struct Few<T, const MOST: usize> {
    places: [T; MOST],
    count: usize,
    ghost has_its_places: { length places ≡ MOST },
    ghost uses_at_most_its_places: { count ≤ MOST },
}
