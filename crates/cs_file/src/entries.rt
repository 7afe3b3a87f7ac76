//! Where the entries of a directory lie.
ghost use Rattle.std.specs.Prelude.{◌≡◌, ◌+◌, ◌*◌, ◌<◌, ◌^◌};
ghost use Rattle.cs_base.specs.declared.content.limits.TheConstants.{MAX_WORDS};

/// Where the entries of a directory lie, one behind the other.
#[derive(Clone, Copy, Drop)]
pub(crate) struct Entries {
    /// The place of the first.
    pub(crate) first: u64,
    /// How many bytes each has.
    pub(crate) size: u32,
}

impl Entries {
    /// The place of entry `i`.
    pub(crate) fn place(&self, i: usize) -> u64
        requires few { i < MAX_WORDS }
        requires places { self.now.first < 2 ^ 40 }

        ensures { result ≡ self.now.first + self.now.size * i }
    {
        self.first + u64::from(self.size) * i as u64
    }
}
