//! What a connection is let do.

/// What a connection is let do.
#[derive(Drop)]
pub struct Rules {
    /// It came over TCP, where any page in a browser on this machine may ask: so `Host`, `Origin` and the type of what is
    /// posted are looked at. Over a Unix socket the file's mode decides who asks.
    pub over_tcp: bool,
    /// The names that a `Host` may have over TCP, besides `localhost` and addresses. Their case does not matter.
    pub hosts: Vec<String>,
    /// Nothing can be posted.
    pub reads_only: bool,
    /// The signer goes over from one committee to the next: each call that is for one chain names it, and one can post to `/over`,
    /// `/endorse` and `/successor`.
    pub renews: bool,
    /// How far above the desk's vote view a block's view, or a timeout's, may lie.
    pub furthest: u64,
}
