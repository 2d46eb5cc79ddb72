//! How a connection stands.

ghost use Rattle.std.specs.Prelude.{◌≡◌};

/// How a connection stands at one moment. Times are in milliseconds, and at most so many as the type counts.
#[derive(Clone, Copy, Debug, PartialEq, Eq)]
pub struct Standing {
    /// How long ago it was made.
    pub age: u32,
    /// How long ago it last sent or took something, or an answer to it was begun.
    pub idle: u32,
    /// Whether its request is awaited.
    pub is_asking: bool,
    /// How many bytes it sent and took, at most so many as the type counts.
    pub bytes: u32,
    /// Which one of its address it was when it came: 1 where no other of that address was there.
    pub nth: u32,
}

impl Standing {
    ghost use Rattle.base_sockets.specs.Standings.{rate};

    /// How many bytes it sent and took a second, in whole bytes.
    pub fn rate(&self) -> u64
        ensures { result ≡ rate self.now }
    {
        u64::from(self.bytes) * 1_000 / u64::from(self.age.max(1))
    }
}
