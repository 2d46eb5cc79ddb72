//! Streams, sockets and HTTP calls that nobody can hold up: each wait has a bound and an end, connections that make no progress
//! give way, and a call of many connections in one thread is gathered until it is whole and is answered in memory. Needs Net, a
//! clock, and Wait for a loop that lasts.
#![tactic(auto)]

mod bounds;
mod calls_read;
mod crowd;
mod dialing;
mod first_bytes;
mod gathering;
mod giving_way;
mod line;
mod listening;
mod lobby;
mod room;
mod short_first;
mod standing;
mod waiting;

pub use bounds::{Bounds, is_over};
pub use calls_read::{CallsRead, Found};
pub use crowd::{Next, Rules, Talk, talk_to_all};
pub use dialing::{PatientStream, dial};
pub use first_bytes::FirstBytes;
pub use gathering::{Answerer, CallTalk, CallsSoFar};
pub use giving_way::gives_way;
pub use listening::{bind, bind_at_home};
pub use lobby::{Arrival, Came, Lobby, LobbyRules};
pub use room::{connections_at, most_open_files, most_open_files_by};
pub use short_first::{FrontSoFar, ShortFirst};
pub use standing::Standing;
pub use waiting::{Hold, read_held, set_ticks, tick, write_held};
