//! What a bookkeeper's desk adds to the kernel: the batch file that does one line under one word.
#![tactic(auto)]

ghost use Rattle.std.specs.Prelude.{◌≡◌, IfOk};
ghost use Rattle.desk.specs.Drafts.{word_file};

use batches::Line;
use std::alloc::{AllocError, Global};

/// The batch file that does one line under one word.
pub fn word_batch(heap: Global, key: &[u8; 24], line: Line) -> Result<Vec<u8>, AllocError>
    ensures is_the_file_of_that_line { IfOk result (λ v. v.items ≡ word_file key.now line) }
{
    let rows = [drafts::row(key, 0, 1)];
    let lines = [drafts::line(u8::from(line.sign), line.number)];
    drafts::file(heap, 1, [1, 1], &rows, &lines)
}
