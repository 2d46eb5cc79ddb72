//! Lines that a program prints or reads: built in place, cut from a text, and those that say of a file or a committee why the
//! program gives up; and a text of others inside a text of ours, escaped so that it stays a text there. Needs no threads, files or
//! network.
#![tactic(auto)]

mod committee;
mod cutting;
mod digits;
mod escaping;
mod line;
mod path;

pub use committee::{committee_fault, refusal_text};
pub use cutting::cut;
pub use digits::{id_digits, number_in, put_id, put_number, put_spoken};
pub use escaping::{Inside, put_escaped};
pub use line::Line;
pub use path::{write_file_fault, write_printed};
