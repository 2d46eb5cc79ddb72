//! A log that lies in memory, as a source.

ghost use Rattle.std.specs.Prelude.{⊤};
ghost use Rattle.log_transfer.specs.Connections.{ended};

use base_streams::Fault;
use log_transfer::Connector;

/// Gives the bytes of a log, which are only lent, so that no memory is given back while others are read. It never fails, and of
/// what it gives nothing is told.
#[derive(Drop)]
pub(crate) struct Lent<'a> {
    rest: &'a [u8],
    // How many bytes were read since the last connect.
    taken: usize,
}

impl<'a> Lent<'a> {
    /// These bytes.
    pub fn new(text: &'a [u8]) -> Lent<'a> {
        Lent {
            rest: text,
            taken: 0,
        }
    }
}

impl<'a> Connector for Lent<'a> {
    ghost gives = { λ s k first most c. ⊤ };

    ghost left = { λ s c. ⊤ };

    ghost asked = { λ s t first most. ⊤ };

    ghost taken = { λ s. s.taken };

    ghost failed = { λ s. 0 };

    ghost reaches = { λ s t. ⊤ };

    ghost allowed = { λ s. 1 };

    fn connect(&mut self, _first: u32, _most: u32) -> Result<(), Fault> {
        self.taken = 0;
        Ok(())
    }

    fn read(&mut self, buffer: &mut [u8]) -> Result<usize, Fault> {
        let n = buffer.len().min(self.rest.len());
        let (front, behind) = self.rest.split_at(n);
        buffer[..n].copy_from_slice(front);
        self.rest = behind;
        self.taken += n;
        Ok(n)
    }

    fn most_tries(&self) -> u8 {
        1
    }

    fn failures(&self) -> u64 {
        0
    }

    ghost some = { λ s. (ended, tt) };

    ghost stays = { λ s. tt };
}
