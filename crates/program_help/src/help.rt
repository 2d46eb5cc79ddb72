//! A program's help.

/// The version of the programs: that of the file VERSION.
pub const VERSION: &str = "0.9.0";

/// What a program says of itself.
#[derive(Clone, Copy, Debug)]
pub struct Help {
    /// Its name.
    pub name: &'static str,
    /// How it is called: lines of 80 columns at most.
    pub text: &'static str,
}
