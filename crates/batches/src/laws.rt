ghost use Rattle.std.specs.Prelude.{◌≡◌, true};
ghost use Rattle.batches.specs.Exactly.{FilesAreReadBack};

/// What is read of a file, its kind code and its rows with lines, is what it was written from. It answers true.
pub fn files_are_read_back() -> bool
    ensures is_true { result ≡ true }
    ensures read_back { FilesAreReadBack }
{
    let read_back = true;
    read_back
}
