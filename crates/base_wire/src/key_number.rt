//! The numbers of a replica's keys.

ghost use Rattle.std.specs.Prelude.{◌≡◌, ◌<◌};
ghost use Rattle.base_wire.specs.KeyNumbers.{key_number};
ghost use Rattle.base_wire.specs.declared.limits.TheConstants.{MOST_KEYS};

/// The number of one of a replica's keys: each replica has key 0, and up to three further ones.
#[derive(Clone, Copy, Debug, PartialEq, Eq)]
pub enum KeyNumber {
    Zero = 0,
    One = 1,
    Two = 2,
    Three = 3,
}

impl KeyNumber {
    /// The key of this number, which must be below 4.
    pub fn of(number: u8) -> KeyNumber
        requires { number < MOST_KEYS }
        ensures { key_number result ≡ number }
    {
        match number {
            0 => KeyNumber::Zero,
            1 => KeyNumber::One,
            2 => KeyNumber::Two,
            _ => KeyNumber::Three,
        }
    }

    /// The number, 0 to 3.
    pub fn number(self) -> u8
        ensures { result ≡ key_number self }
    {
        self as u8
    }
}
