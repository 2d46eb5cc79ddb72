//! What came of a line, and the line that says so.

ghost use Rattle.std.specs.Prelude.{◌≡◌, ◌≤◌, ◌++◌, Some, OnErr, OnOk, codes, length};
ghost use Rattle.hex.specs.Hex.{encode_lower};
ghost use Rattle.base_streams.specs.Counting.{Counts};
ghost use Rattle.base_streams.specs.Streams.{Wrote, WrotePart};
ghost use Rattle.certificates.specs.Votes.{vote_text};
ghost use Rattle.vote_desk.specs.declared.reply.Answer.TheVariants.{Voted};
ghost use Rattle.replica_requests.specs.OutcomeLines.{answer_line, answer_text, commit_text, desk_line, outcome_line};

use crate::Outcome;
use base_streams::{Fault, Sink, write_all};
use base_text::{Line, id_digits};
use blocks::Id;
use certificates::{SignedVote, VOTE_LEN};
use itoa::{Buffer, Integer};
use vote_desk::{Answer, DeskError, Receipt, Reply};

/// What came of a line.
#[derive(Clone, Copy, Debug, PartialEq, Eq)]
pub enum LineOutcome {
    /// This of what it asks for.
    Came(Outcome),
    /// Nothing: it asks for nothing.
    BadLine,
}

/// Writes the line that says what came of a line of input. It takes no heap memory. After a fault a first part of the
/// line was written.
pub fn write_outcome<W: Sink>(out: &mut W, outcome: &LineOutcome) -> Result<(), Fault>
    ensures ok { OnOk result (Wrote (W.text out.old) (W.text out.new) (answer_line outcome.now)) }
    ensures err { OnErr result (WrotePart (W.text out.old) (W.text out.new)
        (answer_line outcome.now)) }
    ensures counted { Counts (W.failed out.old) (W.failed out.new) result }
{
    match outcome {
        LineOutcome::Came(outcome) => write_came(out, outcome),
        LineOutcome::BadLine => write_all(out, b"bad line\n"),
    }
}

fn write_came<W: Sink>(out: &mut W, outcome: &Outcome) -> Result<(), Fault>
    ensures ok { OnOk result (Wrote (W.text out.old) (W.text out.new) (outcome_line outcome.now)) }
    ensures err { OnErr result (WrotePart (W.text out.old) (W.text out.new)
        (outcome_line outcome.now)) }
    ensures counted { Counts (W.failed out.old) (W.failed out.new) result }
{
    match outcome {
        Outcome::Replied(reply) => write_reply(out, reply),
        Outcome::TimedOut(view) => write_numbered(out, b"timeout ", *view),
        Outcome::RefusedHeader(refusal) => {
            write_numbered(out, b"refused header ", refusal.number())
        }
        Outcome::RefusedCertificate(refusal) => {
            write_numbered(out, b"refused certificate ", refusal.number())
        }
        Outcome::RefusedBlock(refusal) => {
            write_numbered(out, b"refused block ", refusal.number())
        }
        Outcome::RefusedByDesk(error) => write_desk_error(out, *error),
    }
}

fn write_desk_error<W: Sink>(out: &mut W, error: DeskError) -> Result<(), Fault>
    ensures ok { OnOk result (Wrote (W.text out.old) (W.text out.new) (desk_line error)) }
    ensures err { OnErr result (WrotePart (W.text out.old) (W.text out.new) (desk_line error)) }
    ensures counted { Counts (W.failed out.old) (W.failed out.new) result }
{
    match error {
        DeskError::Core(refusal) => { write_numbered(out, b"refused core ", refusal.number()) }
        _ => write_numbered(out, b"desk ", error.number()),
    }
}

fn write_numbered<W: Sink, I: Integer>(out: &mut W, words: &[u8], number: I) -> Result<(), Fault>
    requires { length words.now ≤ 20 }
    ensures ok { OnOk result (Wrote (W.text out.old) (W.text out.new) (words.now ++ I.text number
        ++ codes "\n")) }
    ensures err { OnErr result (WrotePart (W.text out.old) (W.text out.new) (words.now
        ++ I.text number ++ codes "\n")) }
    ensures counted { Counts (W.failed out.old) (W.failed out.new) result }
{
    let mut line = Line::new();
    line.push(words);
    line.push(Buffer::new().format(number).as_bytes());
    line.push(b"\n");
    write_all(out, line.as_bytes())
}

fn write_reply<W: Sink>(out: &mut W, reply: &Reply) -> Result<(), Fault>
    ensures ok { OnOk result (Wrote (W.text out.old) (W.text out.new) (answer_text reply.now.act
        ++ commit_text reply.now.committed ++ codes "\n")) }
    ensures err { OnErr result (WrotePart (W.text out.old) (W.text out.new)
        (answer_text reply.now.act ++ commit_text reply.now.committed ++ codes "\n")) }
    ensures counted { Counts (W.failed out.old) (W.failed out.new) result }
{
    write_answer(out, &reply.act)?;
    write_commit(out, &reply.committed)?;
    write_all(out, b"\n")
}

fn write_answer<W: Sink>(out: &mut W, answer: &Answer) -> Result<(), Fault>
    ensures ok { OnOk result (Wrote (W.text out.old) (W.text out.new) (answer_text answer.now)) }
    ensures err { OnErr result (WrotePart (W.text out.old) (W.text out.new)
        (answer_text answer.now)) }
    ensures counted { Counts (W.failed out.old) (W.failed out.new) result }
{
    match answer {
        Answer::Voted(receipt) => write_receipt(out, receipt),
        Answer::Raised => write_all(out, b"raised"),
        Answer::Held => write_all(out, b"held"),
    }
}

fn write_receipt<W: Sink>(out: &mut W, receipt: &Receipt) -> Result<(), Fault>
    ensures ok { OnOk result (Wrote (W.text out.old) (W.text out.new)
        (answer_text (Voted receipt.now))) }
    ensures err { OnErr result (WrotePart (W.text out.old) (W.text out.new)
        (answer_text (Voted receipt.now))) }
    ensures counted { Counts (W.failed out.old) (W.failed out.new) result }
{
    let mut front = Line::new();
    front.push(b"voted ");
    front.push(Buffer::new().format(receipt.number).as_bytes());
    front.push(b" ");
    write_all(out, front.as_bytes())?;
    write_all(out, &vote_digits(&receipt.vote))
}

fn vote_digits(vote: &SignedVote) -> [u8; 2 * VOTE_LEN]
    ensures { result ≡ encode_lower (vote_text vote.now) }
{
    let mut digits = [0; 2 * VOTE_LEN];
    let _ = hex::encode_to_slice(&vote.to_bytes()[..], &mut digits);
    digits
}

fn write_commit<W: Sink>(out: &mut W, committed: &Option<Id>) -> Result<(), Fault>
    ensures ok { OnOk result (Wrote (W.text out.old) (W.text out.new) (commit_text committed.now)) }
    ensures err { OnErr result (WrotePart (W.text out.old) (W.text out.new)
        (commit_text committed.now)) }
    ensures counted { Counts (W.failed out.old) (W.failed out.new) result }
{
    match committed {
        None => Ok(()),
        Some(id) => write_committed_id(out, id),
    }
}

fn write_committed_id<W: Sink>(out: &mut W, id: &Id) -> Result<(), Fault>
    ensures ok { OnOk result (Wrote (W.text out.old) (W.text out.new) (commit_text (Some id.now))) }
    ensures err { OnErr result (WrotePart (W.text out.old) (W.text out.new)
        (commit_text (Some id.now))) }
    ensures counted { Counts (W.failed out.old) (W.failed out.new) result }
{
    write_all(out, b" committed ")?;
    write_all(out, &id_digits(id))
}
