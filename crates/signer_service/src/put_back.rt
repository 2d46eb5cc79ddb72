//! The line that tells that the log was put back.

ghost use Rattle.std.specs.Prelude.{◌≡◌, ◌≤◌, ◌+◌, ◌++◌, length};
ghost use Rattle.arrayvec.specs.ArrayVec.{array_vec_len};
ghost use Rattle.signer_service.specs.ToldLines.{put_back_line};
ghost use Rattle.signer_service.specs.declared.put_back.TheConstants.{LONGEST_LINE};

use arrayvec::ArrayVec;
use base_text::id_digits;
use blocks::Ballot;
use itoa::Buffer;

/// How many bytes the line that tells that the log was put back takes at the most.
pub const LONGEST_LINE: usize = 160;

/// The line that tells that the log was put back, by what the vote is on that it lacks: `stopped vote view V id ID not in the log`.
pub fn put_back_line(ballot: &Ballot) -> ArrayVec<u8, LONGEST_LINE>
    ensures { result.items ≡ put_back_line ballot.now }
{
    let mut line = ArrayVec::new();
    add(&mut line, b"stopped vote view ");
    add(&mut line, Buffer::new().format(ballot.view).as_bytes());
    add(&mut line, b" id ");
    add(&mut line, &id_digits(&ballot.id));
    add(&mut line, b" not in the log\n");
    line
}

// Adds a piece, for which there is room.
fn add(line: &mut ArrayVec<u8, LONGEST_LINE>, piece: &[u8])
    requires { array_vec_len line.old + length piece.now ≤ LONGEST_LINE }
    ensures items { line.new.items ≡ line.old.items ++ piece.now }
    ensures len { array_vec_len line.new ≡ array_vec_len line.old + length piece.now }
{
    // There is room, so it is never refused.
    let _ = line.try_extend_from_slice(piece);
}
