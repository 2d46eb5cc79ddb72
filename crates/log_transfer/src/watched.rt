//! Sources whose progress is watched.

ghost use Rattle.std.specs.Prelude.{◌≡◌};

use crate::connector::Connector;
use crate::failure::Failure;
use base_streams::Fault;

/// Is told how far a source has come.
pub trait Watch {
    /// So many frames of this source are held now.
    fn reached(&self, source: usize, frames: u32);
}

/// A connector whose progress is watched. It gives what the connector gives.
#[derive(Drop)]
pub struct Watched<'a, C: Connector, W: Watch> {
    connector: C,
    watch: &'a W,
    source: usize,
}

impl<'a, C: Connector, W: Watch> Watched<'a, C, W> {
    /// This connector, of whose progress the watch is told as that of the source of this number.
    pub fn new(connector: C, watch: &'a W, source: usize) -> Watched<'a, C, W>
        ensures connector { result.connector ≡ connector }
        ensures source { result.source ≡ source }
    {
        Watched {
            connector,
            watch,
            source,
        }
    }
}

impl<'a, C: Connector, W: Watch> Connector for Watched<'a, C, W> {
    ghost gives = { λ s. C.gives s.connector };

    ghost left = { λ s. C.left s.connector };

    ghost asked = { λ s t. C.asked s.connector t.connector };

    ghost taken = { λ s. C.taken s.connector };

    ghost failed = { λ s. C.failed s.connector };

    ghost reaches = { λ s t. C.reaches s.connector t.connector };

    ghost allowed = { λ s. C.allowed s.connector };

    fn connect(&mut self, first: u32, most: u32) -> Result<(), Fault> {
        self.connector.connect(first, most)
    }

    fn read(&mut self, buffer: &mut [u8]) -> Result<usize, Fault> {
        self.connector.read(buffer)
    }

    fn most_tries(&self) -> u8 {
        self.connector.most_tries()
    }

    fn failures(&self) -> u64 {
        self.connector.failures()
    }

    fn failure(&self) -> Option<Failure> {
        self.connector.failure()
    }

    fn reached(&self, frames: u32) {
        self.watch.reached(self.source, frames);
        self.connector.reached(frames);
    }

    ghost some = { λ s. C.some s.connector };

    ghost stays = { λ s. C.stays s.connector };
}
