ghost use Rattle.std.specs.Prelude.{◌≡◌, true, false};
ghost use Rattle.batches.specs.Opening.{opens};

/// A batch that opened, over its bytes. It ends merged or withdrawn; letting it go is refused.
pub struct OpenBatch<'a> {
    pub(crate) bytes: &'a [u8],

    // A field that no code reads: the contract of the drop speaks of it, so that a batch let go is refused by the check.
    ended: bool,
    ghost opened: { opens bytes.now ≡ true },
}

impl Drop for OpenBatch<'_> {
    fn drop(self)
        requires is_merged_or_withdrawn { self.ended ≡ true }
    {
        let OpenBatch { bytes: _, ended: _ } = self;
    }
}

impl<'a> OpenBatch<'a> {
    /// The batch over bytes that were checked: this cannot refuse.
    pub fn make(bytes: &'a [u8]) -> OpenBatch<'a>
        requires was_checked { opens bytes.now ≡ true }
        ensures is_over_these_bytes { result.bytes ≡ bytes.entry }
        ensures is_neither_merged_nor_withdrawn { result.ended ≡ false }
    {
        OpenBatch {
            bytes,
            ended: false,
        }
    }

    // Spends the batch: only a merge and a withdrawal do.
    pub(crate) fn spend(mut self) -> &'a [u8]
        ensures are_its_bytes { result ≡ self.entry.bytes }
        ensures opened { opens result.now ≡ true }
    {
        self.ended = true;
        self.bytes
    }
}
