ghost use Rattle.std.specs.Prelude.{◌≡◌, map, length};
ghost use Rattle.std.specs.List.{AllPass};
ghost use Rattle.batches.specs.Reading.{cell_of};
ghost use Rattle.batches.specs.Opening.{has_sign};

/// A contents row of an open batch: its key field, the number of its first line, and its count of lines.
#[derive(Clone, Copy)]
pub struct BatchRow<'a> {
    pub key: &'a [u8],
    pub first: u32,
    pub count: u32,
}

/// A contents row together with its lines, as the rows are handed out one after another. Only an open batch makes one, so that each line has a sign.
#[derive(Clone, Copy)]
pub struct OpenRow<'a> {
    pub key: &'a [u8],
    pub first: u32,
    pub count: u32,
    pub(crate) pieces: &'a [[u8; 9]],
    ghost counted: { count ≡ length pieces.now },
    ghost signed: { AllPass has_sign (map cell_of pieces.now) },
}
