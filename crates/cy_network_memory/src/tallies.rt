//! How often rows count.

ghost use Rattle.std.specs.Prelude.{◌≡◌};
ghost use Rattle.cy_network_memory.specs.internal.Maps.{count_of};

/// How often a row counts.
#[derive(Clone, Copy, Debug, Drop)]
pub(crate) struct Tally {
    pub(crate) was: u64,
    pub(crate) staged: u64,
    /// Where its number stands among the numbers under the hash of its key. It says nothing where the row is its own key.
    pub(crate) seat: usize,
}

/// One of the two counts of a row.
#[derive(Clone, Copy, Debug, Drop)]
pub(crate) enum Version {
    Was,
    Staged,
}

impl Tally {
    /// One of its counts.
    pub(crate) fn count(&self, version: Version) -> u64
        ensures { result ≡ count_of version self.now }
    {
        match version {
            Version::Was => self.was,
            Version::Staged => self.staged,
        }
    }
}
