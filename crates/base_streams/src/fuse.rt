//! Failures on demand, for tests.

ghost use Rattle.std.specs.Prelude.{◌≡◌, None, Some};
ghost use Rattle.base_streams.specs.Fuse.{is_burning, after_call};

use std::marker::Model;

/// Says which calls of a device in memory fail. A contract sees the calls that still succeed, where one
/// is to fail, and whether all later ones fail too.
#[derive(Debug, Drop)]
pub struct Fuse {
    pass: Option<u32>,
    forever: bool,
}

impl Model for Fuse {
    ghost use Rattle.std.specs.Prelude.{ℕ, Bool, Option, option_map};

    ghost Value = { Option (ℕ × Bool) };

    ghost view = { λ f. option_map (λ pass. (pass, f.forever)) f.pass };
}

impl Fuse {
    /// No call fails.
    pub fn none() -> Fuse
        ensures { result ≡ None }
    {
        Fuse {
            pass: None,
            forever: false,
        }
    }

    /// The next `pass` calls succeed, the one behind them fails, and with `forever` all later ones too.
    pub fn set(pass: u32, forever: bool) -> Fuse
        ensures { result ≡ Some (pass, forever) }
    {
        Fuse {
            pass: Some(pass),
            forever,
        }
    }

    /// Whether this call is to fail.
    pub fn burns(&mut self) -> bool
        ensures answer { result ≡ is_burning self.old }
        ensures after { self.new ≡ after_call self.old }
    {
        match self.pass {
            None => false,
            Some(0) => {
                if !self.forever {
                    self.pass = None;
                }
                true
            }
            Some(left) => {
                self.pass = Some(left - 1);
                false
            }
        }
    }
}
