//! Connections to a source.

ghost use Rattle.std.specs.Prelude.{◌≡◌, ◌≤◌, ◌<◌, ◌+◌, ℕ, IfOk, OnOk, OnErr, length, take};
ghost use Rattle.base_streams.specs.Counting.{Counts};
ghost use Rattle.log_transfer.specs.Connections.{Connection, CountsBytes, GivesSome, behind, ended, failing};
ghost use Rattle.log_transfer.specs.declared.budget.TheConstants.{MOST_OF_A_STREAM};

use crate::failure::Failure;
use base_streams::Fault;

/// A source of a log, over one connection at a time. Each is asked for a part of the log, and gives bytes up to an
/// end or a failure.
///
/// A contract names what each connection may give and was asked for, how many bytes of the open one were read, and how many
/// calls failed. A source that tells nothing may give anything; something it gives always.
pub trait Connector: Drop {
    /// What the connection so many behind the next one may give, asked for the frames from one on, so many at most.
    ghost gives: { Self → ℕ → ℕ → ℕ → Connection → Type 0 };

    /// What the open connection may still give.
    ghost left: { Self → Connection → Type 0 };

    /// From the first state a connect to the second asked for the frames from one on, so many at most.
    ghost asked: { Self → Self → ℕ → ℕ → Type 0 };

    /// How many bytes were read since the last connect.
    ghost taken: { Self → ℕ };

    /// How often a call failed, up to the count's last value.
    ghost failed: { Self → ℕ };

    /// Calls lead from the first state to the second.
    ghost reaches: { Self → Self → Type 0 };

    /// How many connections a reader may make: one, where a later part can't be asked for.
    ghost allowed: { Self → ℕ };

    /// Opens the next connection in place of the one before, and asks for the frames from `first` on, at most `most`
    /// of them.
    fn connect(&mut self, first: u32, most: u32) -> Result<(), Fault>
        ensures ok { OnOk result ((c : Connection) → left self.new c
            → gives self.old 0 first most c) }
        ensures err { OnErr result (gives self.old 0 first most failing) }
        ensures later { (k f m : ℕ) (c : Connection) → gives self.new k f m c
            → gives self.old (k + 1) f m c }
        ensures request { OnOk result (asked self.old self.new first most) }
        ensures fresh { taken self.new ≡ 0 }
        ensures state { (s : Self) → reaches s self.old → reaches s self.new }
        ensures counted { Counts (failed self.old) (failed self.new) result };

    /// Fills the front of the buffer from the open connection, and answers how many bytes it gave. It gives none only
    /// at the end, or where the buffer is empty. Of one connection no more is read than `MOST_OF_A_STREAM`.
    fn read(&mut self, buffer: &mut [u8]) -> Result<usize, Fault>
        requires { taken self.old + length buffer.old ≤ MOST_OF_A_STREAM }
        ensures within { IfOk result (λ n. n ≤ length buffer.new) }
        ensures ok { IfOk result (λ n. (c : Connection) → left self.new c
            → left self.old (behind (take n buffer.new) c)) }
        ensures at_end { IfOk result (λ n. n ≡ 0 → 0 < length buffer.new → left self.old ended) }
        ensures err { OnErr result (left self.old failing) }
        ensures later { (k f m : ℕ) (c : Connection) → gives self.new k f m c
            → gives self.old k f m c }
        ensures bytes { CountsBytes (taken self.old) (taken self.new) result }
        ensures state { (s : Self) → reaches s self.old → reaches s self.new }
        ensures counted { Counts (failed self.old) (failed self.new) result };

    /// How many connections a reader may make.
    fn most_tries(&self) -> u8
        ensures { result ≡ allowed self.now };

    /// How many calls answered a fault, up to 2^64 - 1.
    fn failures(&self) -> u64
        ensures count { result ≡ failed self.now }
        // Something may still be given, and by each later connection too.
        ensures some { GivesSome (left self.now) }
        ensures next { (k f m : ℕ) → GivesSome (gives self.now k f m) };

    /// Why the last call failed, where it did and the connector knows. For people: nothing depends on it.
    fn failure(&self) -> Option<Failure> {
        None
    }

    /// Is told how many frames of the log are held, after each. For progress: nothing depends on it.
    fn reached(&self, frames: u32) {}

    /// Something may still be given.
    ghost some: { (s : Self) → (c : Connection) × left s c };

    /// A state is reached from itself, with no call.
    ghost stays: { (s : Self) → reaches s s };
}
