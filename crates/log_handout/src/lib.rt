//! A log that goes out in pieces while votes go on: which bytes come next, over a desk that may grow meanwhile. Calls that take the
//! desk's lock may wait; needs no threads, files or network.
#![tactic(auto)]

mod handout;
mod reply;
mod stage;

pub use handout::Handout;
pub use reply::Reply;
pub use stage::Stage;
