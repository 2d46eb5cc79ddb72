//! A source of the log of one chain.

use crate::dialer::ChainDialer;
use log_transfer::{FileConnector, ServerConnector, ServerOrFile, TcpDialer};

/// A server over TCP that is asked for the log of one chain, or a file of the system.
pub type ChainSource<'s, R, F> = ServerOrFile<
    ServerConnector<'s, R, ChainDialer<'s, TcpDialer<'s, R>>>,
    FileConnector<'s, F>,
>;
