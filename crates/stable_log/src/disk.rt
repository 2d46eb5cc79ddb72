//! A disk: what a read gives, what a crash may leave, how often a call failed.
ghost use Rattle.std.specs.Prelude.{◌≡◌, ◌≤◌, ◌+◌, ◌↔◌, List, ℕ, length, take, drop, IfOk, OnOk, IfSome, Option, option_map, IsSome};
ghost use Rattle.stable_log.specs.Disk.{written};
ghost use Rattle.base_streams.specs.Counting.{Counts};
ghost use Rattle.stable_log.specs.Crash.{Torn, Follows, NoNew, Only, Elapses};

use base_streams::Fault;

/// A disk of bytes. It tells its bytes and what a crash may leave of them, or it tells nothing.
///
/// Until a sync succeeds, a crash may leave any bytes in each range written since the last one, and past the end
/// that the disk had then; all other bytes stay. After it, a crash leaves what a read gives.
pub trait Disk: Drop {
    /// What a read gives, where the disk tells it.
    ghost bytes: { Self → Option (List ℕ) };

    /// What a crash at this moment may leave.
    ghost images: { Self → List ℕ → Type 0 };

    /// The moment, as a number that doesn't fall.
    ghost moment: { Self → ℕ };

    /// What a crash at some moment from that one on might have left.
    ghost images_since: { Self → ℕ → List ℕ → Type 0 };

    /// How often a call failed, up to the count's last value.
    ghost failed: { Self → ℕ };

    /// The length in bytes.
    fn len(&mut self) -> Result<u64, Fault>
        ensures told { IfOk result (λ n. IfSome (bytes self.old) (λ bs. n ≡ length bs)) }
        ensures same { bytes self.new ≡ bytes self.old }
        ensures crash { NoNew (images self.old) (images self.new) }
        ensures time { Elapses (moment self.old) (moment self.new) (images_since self.old)
            (images_since self.new) (images self.new) }
        ensures cause { Counts (failed self.old) (failed self.new) result };

    /// Fills the whole buffer from offset `at`. A range that the disk doesn't hold is a fault. After a fault the
    /// buffer holds any bytes.
    fn read_at(&mut self, at: u64, out: &mut [u8]) -> Result<(), Fault>
        ensures told { OnOk result (IfSome (bytes self.old) (λ bs. (at + length out.old ≤ length bs)
            × (out.new ≡ take (length out.old) (drop at bs)))) }
        ensures same { bytes self.new ≡ bytes self.old }
        ensures crash { NoNew (images self.old) (images self.new) }
        ensures time { Elapses (moment self.old) (moment self.new) (images_since self.old)
            (images_since self.new) (images self.new) }
        ensures cause { Counts (failed self.old) (failed self.new) result };

    /// Writes at offset `at`, which must be at or before the end, over what is there and past the end. After a
    /// fault any part of the piece may be there.
    fn write_at(&mut self, at: u64, piece: &[u8]) -> Result<(), Fault>
        requires { IfSome (bytes self.old) (λ bs. at ≤ length bs) }
        ensures told { OnOk result (bytes self.new ≡ option_map (λ bs.
            written bs at piece.now) (bytes self.old)) }
        ensures tells { IsSome (bytes self.new) ↔ IsSome (bytes self.old) }
        ensures crash { Follows (Torn at (length piece.now)) (images self.old) (images self.new) }
        ensures time { Elapses (moment self.old) (moment self.new) (images_since self.old)
            (images_since self.new) (images self.new) }
        ensures cause { Counts (failed self.old) (failed self.new) result };

    /// Makes all that was written durable: from then on a crash leaves what a read gives.
    fn sync(&mut self) -> Result<(), Fault>
        ensures same { bytes self.new ≡ bytes self.old }
        ensures durable { OnOk result (IfSome (bytes self.old) (λ bs. Only bs (images self.new))) }
        ensures crash { NoNew (images self.old) (images self.new) }
        ensures time { Elapses (moment self.old) (moment self.new) (images_since self.old)
            (images_since self.new) (images self.new) }
        ensures cause { Counts (failed self.old) (failed self.new) result };

    /// How many calls answered a fault, up to 2^64 - 1.
    fn failures(&self) -> u64
        ensures { result ≡ failed self.now };

    /// This moment is one of those since an earlier one.
    ghost counts_now: { (d : Self) (t : ℕ) (c : List ℕ) → t ≤ moment d → images d c → images_since d t c };

    /// Since this moment there is no other.
    ghost only_now: { (d : Self) (c : List ℕ) → images_since d (moment d) c → images d c };

    /// The disk as it is read is one of its images.
    ghost as_read: { (d : Self) → IfSome (bytes d) (images d) };
}
