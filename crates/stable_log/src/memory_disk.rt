//! A disk in memory, for tests. It keeps its first bytes and each call since, from which its crash images follow.
ghost use Rattle.std.specs.Prelude.{◌≡◌, ◌≤◌, ◌+◌, ◌-◌, ◌^◌, min, ℕ, Some, None, IfOk, IfSome, OnOk, OnErr, List, length, take, drop, [], ◌∷◌, ◌++◌, replicate};
ghost use Rattle.stable_log.specs.Disk.{written};
ghost use Rattle.base_streams.specs.Counting.{Counts, one_more};
ghost use Rattle.stable_log.specs.Crash.{Torn, Only, Unwritten};
ghost use Rattle.stable_log.specs.Memory.{disk_state, IsImageOf, WasImage};
ghost use Rattle.stable_log.specs.MemoryLaws.{counts_now_of, only_now_of, as_read_of};

use crate::Disk;
use base_streams::{Fault, Fuse};
use std::alloc::{AllocError, Global};

// A call that changed the disk.
#[derive(Drop)]
enum Call {
    Write(usize, Vec<u8>),
    Sync,
}

/// What a crash leaves of each range written since the last sync.
#[derive(Clone, Copy, Debug, PartialEq, Eq)]
pub enum Choice {
    /// The bytes before; what stood past the old end is gone.
    Old,
    /// The bytes written.
    New,
    /// Each byte is this one.
    Fill(u8),
    /// The first half new, rounded down, the rest as before, past the old end 0.
    Half,
}

/// A disk in memory, for tests. It tells its bytes, fails where it is told to, and shows what a crash leaves.
///
/// A call that fails stores nothing. Want of memory in a call counts as a failure, and so does a read past the end.
#[derive(Drop)]
pub struct MemoryDisk {
    alloc: Global,
    // what it was made of, all synced
    first: Vec<u8>,
    // the writes and syncs since, in order
    calls: Vec<Call>,
    bytes: Vec<u8>,
    fuse: Fuse,
    // how many calls came, failed ones too; it stands still at its last value
    answered: u64,
    failures: u64,
    pub ghost replayed: { bytes.items ≡ (disk_state first.items calls.items).bytes },
}

// `bytes` with a piece written at an offset.
fn replaced(alloc: Global, bytes: &[u8], at: usize, piece: &[u8]) -> Result<Vec<u8>, AllocError>
    ensures { IfOk result (λ v. v.items ≡ written bytes.now at piece.now) }
{
    let front = at.min(bytes.len());
    let mut all = bytes[..front].to_vec(alloc)?;
    all.extend_from_slice(piece)?;
    if piece.len() < bytes.len() - front {
        all.extend_from_slice(&bytes[front + piece.len()..])?;
    }
    Ok(all)
}

// What stands in a range of a piece after a crash, where the choice is not `Old`.
fn patch(
    alloc: Global,
    left: &[u8],
    at: usize,
    piece: &[u8],
    choice: Choice,
) -> Result<Vec<u8>, AllocError>
    ensures len { IfOk result (λ v. length v.items ≡ length piece.now) }
    ensures new { choice ≡ Choice.New → IfOk result (λ v. v.items ≡ piece.now) }
    ensures fill { (b : ℕ) → choice ≡ Choice.Fill b
        → IfOk result (λ v. v.items ≡ replicate (length piece.now) b) }
{
    match choice {
        Choice::Old | Choice::New => piece.to_vec(alloc),
        Choice::Fill(byte) => {
            let all = vec![in alloc; byte; piece.len()]?;
            Ok(all)
        }
        Choice::Half => {
            let mut all = piece.to_vec(alloc)?;
            for k in piece.len() / 2..piece.len() {
                all[k] = left.get(at.saturating_add(k)).copied().unwrap_or(0);
            }
            Ok(all)
        }
    }
}

// What a crash leaves of a write.
fn torn(
    alloc: Global,
    left: &[u8],
    at: usize,
    piece: &[u8],
    choice: Choice,
) -> Result<Vec<u8>, AllocError>
    ensures torn { IfOk result (λ v. Torn at (length piece.now) left.now v.items) }
    ensures new { choice ≡ Choice.New → IfOk result (λ v. v.items ≡ written left.now at piece.now) }
    ensures old { choice ≡ Choice.Old → IfOk result (λ v. v.items ≡ left.now) }
{
    if choice == Choice::Old {
        return left.to_vec(alloc);
    }
    let bytes = patch(alloc, left, at, piece, choice)?;
    replaced(alloc, left, at, &bytes)
}

impl MemoryDisk {
    ghost use Rattle.base_streams.specs.Fuse.{after_call, is_burning};
    ghost use Rattle.stable_log.specs.MemoryParts.{calls_of, fuse_of, synced_of};

    /// A disk of these bytes, all of them synced, with no call, no failure and no fuse.
    pub fn new(alloc: Global, bytes: Vec<u8>) -> Result<MemoryDisk, AllocError>
        ensures told { IfOk result (λ d. ⟦<MemoryDisk as Disk>⟧.bytes d ≡ Some bytes.items) }
        ensures durable { IfOk result (λ d. Only bytes.items (⟦<MemoryDisk as Disk>⟧.images d)) }
        ensures failed { IfOk result (λ d. ⟦<MemoryDisk as Disk>⟧.failed d ≡ 0) }
        ensures fuse { IfOk result (λ d. fuse_of d ≡ None) }
        ensures calls { IfOk result (λ d. calls_of d ≡ 0) }
    {
        let first = bytes.to_vec(alloc)?;
        Ok(MemoryDisk {
            alloc,
            first,
            calls: Vec::new(alloc),
            bytes,
            fuse: Fuse::none(),
            answered: 0,
            failures: 0,
        })
    }

    /// What a read gives.
    pub fn bytes(&self) -> &[u8]
        ensures { ⟦<MemoryDisk as Disk>⟧.bytes self.now ≡ Some result.now }
    {
        &self.bytes
    }

    /// How many calls of `len`, `read_at`, `write_at` and `sync` it answered, with faults too, up to 2^64 - 1. The calls of
    /// a run that meets no failure are those at which a fuse can make it fail.
    pub fn calls(&self) -> u64
        ensures { result ≡ calls_of self.now }
    {
        self.answered
    }

    /// From here on the next `pass` calls succeed and the one behind them fails, and all later ones too where
    /// `forever`. It replaces an earlier fuse.
    pub fn fuse(&mut self, pass: u32, forever: bool)
        ensures fuse { fuse_of self.new ≡ Some (pass, forever) }
        ensures same { Unwritten ⟦<MemoryDisk as Disk>⟧.bytes ⟦<MemoryDisk as Disk>⟧.images
            ⟦<MemoryDisk as Disk>⟧.moment ⟦<MemoryDisk as Disk>⟧.images_since self.old self.new }
        ensures failed { ⟦<MemoryDisk as Disk>⟧.failed self.new
            ≡ ⟦<MemoryDisk as Disk>⟧.failed self.old }
        ensures calls { calls_of self.new ≡ calls_of self.old }
    {
        self.fuse = Fuse::set(pass, forever);
    }

    /// The disk that a crash at this moment leaves, all of it synced, with no call, no failure and no fuse.
    pub fn crash(&self, choice: Choice) -> Result<MemoryDisk, AllocError>
        ensures image { IfOk result (λ d. IfSome (⟦<MemoryDisk as Disk>⟧.bytes d)
            (⟦<MemoryDisk as Disk>⟧.images self.now)) }
        ensures new { choice ≡ Choice.New → IfOk result (λ d.
            ⟦<MemoryDisk as Disk>⟧.bytes d ≡ ⟦<MemoryDisk as Disk>⟧.bytes self.now) }
        ensures old { choice ≡ Choice.Old → IfOk result (λ d.
            ⟦<MemoryDisk as Disk>⟧.bytes d ≡ Some (synced_of self.now)) }
        ensures durable { IfOk result (λ d. IfSome (⟦<MemoryDisk as Disk>⟧.bytes d) (λ bytes.
            Only bytes (⟦<MemoryDisk as Disk>⟧.images d))) }
        ensures failed { IfOk result (λ d. ⟦<MemoryDisk as Disk>⟧.failed d ≡ 0) }
        ensures fuse { IfOk result (λ d. fuse_of d ≡ None) }
        ensures calls { IfOk result (λ d. calls_of d ≡ 0) }
    {
        let mut seen = self.first.to_vec(self.alloc)?;
        let mut left = self.first.to_vec(self.alloc)?;
        for call in &self.calls {
            match call {
                Call::Sync => left = seen.to_vec(self.alloc)?,
                Call::Write(at, piece) => {
                    left = torn(self.alloc, &left, *at, piece, choice)?;
                    seen = replaced(self.alloc, &seen, *at, piece)?;
                }
            }
        }
        MemoryDisk::new(self.alloc, left)
    }

    // Counts a call, and answers whether it fails by the fuse.
    fn burns(&mut self) -> bool
        ensures counted { calls_of self.new ≡ one_more (calls_of self.old) }
        ensures burns { result ≡ is_burning (fuse_of self.old) }
        ensures fuse { fuse_of self.new ≡ after_call (fuse_of self.old) }
        ensures bytes { self.new.bytes ≡ self.old.bytes }
        ensures first { self.new.first ≡ self.old.first }
        ensures calls { self.new.calls ≡ self.old.calls }
        ensures failures { self.new.failures ≡ self.old.failures }
    {
        self.answered = self.answered.saturating_add(1);
        self.fuse.burns()
    }

    // Counts a failure.
    fn fail(&mut self) -> Fault
        ensures bytes { self.new.bytes ≡ self.old.bytes }
        ensures first { self.new.first ≡ self.old.first }
        ensures calls { self.new.calls ≡ self.old.calls }
        ensures risen { self.new.failures ≡ one_more self.old.failures }
    {
        self.failures = self.failures.saturating_add(1);
        Fault
    }

    // Writes, or leaves all as it was.
    fn store(&mut self, at: usize, piece: &[u8]) -> Result<(), AllocError>
        ensures first { self.new.first ≡ self.old.first }
        ensures failures { self.new.failures ≡ self.old.failures }
        ensures ok { OnOk result ((self.new.bytes.items ≡ written self.old.bytes.items at piece.now)
            × ((v : _) × (v.items ≡ piece.now)
            × (self.new.calls.items ≡ self.old.calls.items ++ Call.Write at v ∷ []))) }
        ensures err { OnErr result ((self.new.bytes ≡ self.old.bytes)
            × (self.new.calls.items ≡ self.old.calls.items)) }
    {
        let next = replaced(self.alloc, &self.bytes, at, piece)?;
        let kept = piece.to_vec(self.alloc)?;
        self.calls.reserve(1)?;
        self.calls.push_reserved(Call::Write(at, kept));
        self.bytes = next;
        Ok(())
    }

    // Notes a sync, or leaves all as it was.
    fn mark(&mut self) -> Result<(), AllocError>
        ensures first { self.new.first ≡ self.old.first }
        ensures bytes { self.new.bytes ≡ self.old.bytes }
        ensures failures { self.new.failures ≡ self.old.failures }
        ensures ok { OnOk result (self.new.calls.items ≡ self.old.calls.items ++ Call.Sync ∷ []) }
        ensures err { OnErr result (self.new.calls.items ≡ self.old.calls.items) }
    {
        self.calls.reserve(1)?;
        self.calls.push_reserved(Call::Sync);
        Ok(())
    }
}

impl Disk for MemoryDisk {
    ghost bytes = { λ d. Some d.bytes.items };

    ghost images = { λ d c. IsImageOf (disk_state d.first.items d.calls.items) c };

    ghost moment = { λ d. length d.calls.items };

    ghost images_since = { λ d t c. WasImage d.first.items d.calls.items t c };

    ghost failed = { λ d. d.failures };

    ghost counts_now = { λ d t c le now. counts_now_of d.first.items d.calls.items t c le now };

    ghost only_now = { λ d c left. only_now_of d.first.items d.calls.items c left };

    ghost as_read = { λ d. as_read_of d.first.items d.calls.items d.bytes.items d.replayed };

    fn len(&mut self) -> Result<u64, Fault> {
        if self.burns() {
            return Err(self.fail());
        }
        Ok(self.bytes.len() as u64)
    }

    fn read_at(&mut self, at: u64, out: &mut [u8]) -> Result<(), Fault> {
        let len = self.bytes.len() as u64;
        if self.burns() || at > len || out.len() as u64 > len - at {
            return Err(self.fail());
        }
        let start = at as usize;
        out.copy_from_slice(&self.bytes[start..start + out.len()]);
        Ok(())
    }

    fn write_at(&mut self, at: u64, piece: &[u8]) -> Result<(), Fault> {
        if self.burns() {
            return Err(self.fail());
        }
        match self.store(at as usize, piece) {
            Ok(()) => Ok(()),
            Err(_) => Err(self.fail()),
        }
    }

    fn sync(&mut self) -> Result<(), Fault> {
        if self.burns() {
            return Err(self.fail());
        }
        match self.mark() {
            Ok(()) => Ok(()),
            Err(_) => Err(self.fail()),
        }
    }

    fn failures(&self) -> u64 {
        self.failures
    }
}
