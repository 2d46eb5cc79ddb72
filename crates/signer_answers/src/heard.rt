//! What was heard of the logs of others.

ghost use Rattle.std.specs.Prelude.{◌≡◌};
ghost use Rattle.signer_answers.specs.Hearings.{Hearing};

/// What was heard of the logs of others. Who opens a gate hands it in, and nothing in this crate makes one: so a gate opens by just
/// what was handed in.
pub trait Heard {
    /// Both of these.
    ghost hearing: { Self → Hearing };

    /// Whose logs were read whole, by the replicas' numbers.
    fn whole(&self) -> &[bool]
        ensures { result.now ≡ (hearing self.now).whole };

    /// The greatest view that was found to be certified, if one was.
    fn greatest(&self) -> Option<u64>
        ensures { result ≡ (hearing self.now).greatest };
}
