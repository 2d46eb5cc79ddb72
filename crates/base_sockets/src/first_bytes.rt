//! How many bytes a connection begins with.

ghost use Rattle.std.specs.Prelude.{◌≡◌};
ghost use Rattle.base_sockets.specs.Awaiting.{awaited};

/// How many first bytes are awaited of a connection.
#[derive(Clone, Copy, Debug, PartialEq, Eq)]
pub struct FirstBytes {
    /// So many,
    pub usual: usize,
    /// but where the first four are these
    pub magic: [u8; 4],
    /// so many.
    pub of_magic: usize,
}

impl FirstBytes {
    /// How many are awaited in all of a connection of which these have come.
    pub fn awaited(&self, come: &[u8]) -> usize
        ensures { result ≡ awaited self.now come.now }
    {
        if come.starts_with(&self.magic) {
            self.of_magic
        } else {
            self.usual
        }
    }
}
