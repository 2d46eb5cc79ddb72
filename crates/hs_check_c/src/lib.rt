//! The checker for programs in other languages: the calls that include/hs_check.h declares. They take no memory, keep nothing
//! between calls, and read nothing but what they are handed.
#![tactic(auto)]

mod exported;

pub use exported::{hs_check, hs_check_name, hs_check_version, hs_committee};
