//! Steps of a reader of a source.

ghost use Rattle.std.specs.Prelude.{◌≡◌, ◌<◌, ◌≤◌, ◌+◌, ℕ, List, [], ◌∷◌, length, take, codes, true, false, MatchOption, ◌⊎◌, ◌↔◌, IsTrue};
ghost use Rattle.base_wire.specs.declared.limits.TheConstants.{LONGEST_PAYLOAD};
ghost use Rattle.log_transfer.specs.Connections.{Connection};
ghost use Rattle.log_transfer.specs.Counting.{IsMagicCounted, IsEnterCounted};
ghost use Rattle.log_transfer.specs.Streams.{GaveAll};
ghost use Rattle.log_transfer.specs.Magics.{EndsAtMagic};
ghost use Rattle.log_transfer.specs.Turns.{IsAdvanced, IsEntered, IsTurn};
ghost use Rattle.log_transfer.specs.Places.{IsCaused, IsPlace, Leads, may_go_on};

use crate::connector::Connector;
use crate::filling::{Filled, fill};
use crate::reader_state::{ReaderState, may_go_on};
use crate::stream::{Came, read_frame, unfinished};
use base_wire::MOST_ENTRIES;
use log_format::Status;

// The greatest number of frames of one source.
const MOST_FRAMES: u32 = MOST_ENTRIES as u32;

// Whether these four bytes are the magic.
pub(crate) fn is_magic(bytes: &[u8]) -> bool
    requires { length bytes.now ≡ 4 }
    ensures { IsTrue result ↔ (bytes.now ≡ codes "HSL1") }
{
    bytes.starts_with(b"HSL1")
}

// Reads the magic, and answers the status where it is not there.
fn read_magic<C: Connector>(connector: &mut C) -> Option<Status>
    requires { C.taken connector.old ≡ 0 }
    ensures magic { MatchOption result (GaveAll (C.left connector.old) (C.left connector.new)
        (codes "HSL1")) (EndsAtMagic (C.left connector.old)) }
    ensures later { (k f m : ℕ) (c : Connection) → C.gives connector.new k f m c
        → C.gives connector.old k f m c }
    ensures bytes { C.taken connector.new ≤ 4 }
    ensures state { (s : C) → C.reaches s connector.old → C.reaches s connector.new }
    ensures counted { IsMagicCounted (C.failed connector.old) (C.failed connector.new) result }
{
    let mut bytes = [0; 4];
    match fill(connector, &mut bytes) {
        Filled::All => {
            if is_magic(&bytes) {
                None
            } else {
                Some(Status::Broken)
            }
        }
        Filled::Part(_, failed) => Some(unfinished(failed)),
    }
}

// Reads the magic of a connection that was opened.
fn enter<C: Connector>(connector: &mut C, place: &mut ReaderState)
    requires closed { place.old.is_open ≡ false }
    requires fresh { C.taken connector.old ≡ 0 }
    ensures entered { IsEntered (C.left connector.old)
        (C.left connector.new) place.new.is_open place.new.count place.new.last }
    ensures same { (place.new.held ≡ place.old.held) × (place.new.tries ≡ place.old.tries) }
    ensures few { (place.new.count ≡ 0) ⊎ (place.new.count ≡ place.old.count) }
    ensures bytes { C.taken connector.new ≤ 4 }
    ensures state { (s : C) → C.reaches s connector.old → C.reaches s connector.new }
    ensures counted { IsEnterCounted (C.failed connector.old)
        (C.failed connector.new) place.new.is_open place.new.last }
    ensures later { (k f m : ℕ) (c : Connection) → C.gives connector.new k f m c
        → C.gives connector.old k f m c }
{
    match read_magic(connector) {
        None => {
            place.count = 0;
            place.is_open = true;
        }
        Some(status) => place.last = status,
    }
}

// Makes the next connection, and reads its magic.
fn open_next<C: Connector>(connector: &mut C, place: &mut ReaderState)
    requires closed { place.old.is_open ≡ false }
    requires may { may_go_on place.old.last ≡ true }
    requires some { 0 < place.old.tries }
    requires place { IsPlace (C.taken connector.old) place.old }
    ensures leads { Leads (C.gives connector.old) (C.gives connector.new) (C.left connector.old)
        (C.left connector.new) place.old place.new [] }
    ensures place { IsPlace (C.taken connector.new) place.new }
    ensures state { (s : C) → C.reaches s connector.old → C.reaches s connector.new }
    ensures cause { (before : ℕ) → IsCaused before (C.failed connector.old) place.old
        → IsCaused before (C.failed connector.new) place.new }
    ensures tries { place.new.tries + 1 ≡ place.old.tries }
    ensures held { place.new.held ≡ place.old.held }
{
    place.tries -= 1;
    match connector.connect(place.held, MOST_FRAMES + 1 - place.held) {
        Err(_) => place.last = Status::Failed,
        Ok(()) => enter(connector, place),
    }
}

enum Turn {
    // A frame of so many bytes, in the buffer.
    Frame(usize),
    // Nothing yet.
    On,
    // No more is to come.
    Done,
}

// Reads one frame of the open connection, or its end.
fn step<C: Connector>(connector: &mut C, place: &mut ReaderState, buffer: &mut [u8]) -> Turn
    requires shown { place.old.is_open ≡ true }
    requires buffer { length buffer.old ≡ LONGEST_PAYLOAD }
    requires place { IsPlace (C.taken connector.old) place.old }
    ensures turn { IsTurn (C.gives connector.old) (C.gives connector.new) (C.left connector.old)
        (C.left connector.new) place.old place.new buffer.new result }
    ensures state { (s : C) → C.reaches s connector.old → C.reaches s connector.new }
    ensures cause { (before : ℕ) → IsCaused before (C.failed connector.old) place.old
        → IsCaused before (C.failed connector.new) place.new }
    ensures buffer { length buffer.new ≡ LONGEST_PAYLOAD }
    ensures place { IsPlace (C.taken connector.new) place.new }
{
    match read_frame(connector, buffer, place.count, MOST_FRAMES - place.held) {
        Came::Frame(len) => {
            place.held += 1;
            place.count += 1;
            Turn::Frame(len)
        }
        Came::End(status) => {
            place.is_open = false;
            place.last = status;
            Turn::On
        }
    }
}

// Goes on with the open connection, or makes one.
fn go_on<C: Connector>(connector: &mut C, place: &mut ReaderState, buffer: &mut [u8]) -> Turn
    requires buffer { length buffer.old ≡ LONGEST_PAYLOAD }
    requires place { IsPlace (C.taken connector.old) place.old }
    ensures turn { IsTurn (C.gives connector.old) (C.gives connector.new) (C.left connector.old)
        (C.left connector.new) place.old place.new buffer.new result }
    ensures state { (s : C) → C.reaches s connector.old → C.reaches s connector.new }
    ensures cause { (before : ℕ) → IsCaused before (C.failed connector.old) place.old
        → IsCaused before (C.failed connector.new) place.new }
    ensures buffer { length buffer.new ≡ LONGEST_PAYLOAD }
    ensures place { IsPlace (C.taken connector.new) place.new }
{
    if place.is_open {
        return step(connector, place, buffer);
    }
    if may_go_on(place.last) {
        if place.tries > 0 {
            open_next(connector, place);
            return Turn::On;
        }
    }
    Turn::Done
}

// Reads the next frame, and makes connections for it. None where no more is to come.
pub(crate) fn advance<C: Connector>(
    connector: &mut C,
    place: &mut ReaderState,
    buffer: &mut [u8],
) -> Option<usize>
    requires buffer { length buffer.old ≡ LONGEST_PAYLOAD }
    requires place { IsPlace (C.taken connector.old) place.old }
    ensures advanced { IsAdvanced (C.gives connector.old) (C.gives connector.new)
        (C.left connector.old) (C.left connector.new) place.old place.new buffer.new result }
    ensures state { (s : C) → C.reaches s connector.old → C.reaches s connector.new }
    ensures cause { (before : ℕ) → IsCaused before (C.failed connector.old) place.old
        → IsCaused before (C.failed connector.new) place.new }
    ensures buffer { length buffer.new ≡ LONGEST_PAYLOAD }
    ensures place { IsPlace (C.taken connector.new) place.new }
{
    loop {
        match go_on(connector, place, buffer) {
            Turn::Frame(len) => return Some(len),
            Turn::Done => return None,
            Turn::On => {}
        }
    }
}
