//! What a call asks for.

ghost use Rattle.std.specs.Prelude.{◌≡◌, ◌≤◌, length};
ghost use Rattle.signer_calls.specs.CallRefusals.{call_refusal_name, call_refusal_number, call_refusal_status};

use crate::block_list::BlockList;
use crate::log_part::LogPart;
use crate::target::Methods;
use blocks::Id;
use bytes::Bytes;
use certificates::{Certificate, CertificateRefusal, SignedVote};
use http::StatusCode;
use replica_requests::Request;

/// What a call to go over names: the chain that is left, the file of the committee that follows, its renewal, and what shows that the
/// handover to it is committed, if not the blocks that this signer was handed.
#[derive(Drop)]
pub struct Over {
    /// The chain that the call names.
    pub chain: Id,
    /// The bytes of the renewal, which may be none.
    pub renewal: Bytes,
    /// The bytes of the file.
    pub file: Bytes,
    /// The bytes of the light proof, if there is one.
    pub proof: Option<Bytes>,
}

/// A renewal, and the file of a committee that it may be for.
#[derive(Drop)]
pub struct Renewing {
    /// The bytes of the renewal, which may be none.
    pub renewal: Bytes,
    /// The bytes of the file.
    pub file: Bytes,
}

/// What a call asks for.
#[derive(Drop)]
pub enum Call {
    /// To deliver a block, `POST /block`, or to give up on views, `POST /timeout/V`; or what is refused of a block's bytes.
    Replica(Request),
    /// To deliver blocks one after the other: `POST /blocks`.
    Blocks(BlockList),
    /// Whether a vote is good: `POST /vote`.
    Judge(SignedVote),
    /// Whether a certificate is good, or why its bytes are none, which is not for want of memory: `POST /certificate`.
    Certificate(Result<Certificate, CertificateRefusal>),
    /// To go over to the next committee: `POST /over`. Whether it is from this chain is not looked at here.
    Over(Over),
    /// The statement of this replica's next keys, signed: `POST /endorse`.
    Endorse,
    /// Whether a file's committee renews this one: `POST /successor`. Nothing is read of either here.
    Renew(Renewing),
    /// The log's vote in this view: `GET /vote/V`.
    VoteIn(u64),
    /// Whether the header of this id is held: `GET /block/ID`.
    Header(Id),
    /// Whether a block with this payload may be voted for where it hands over: `GET /successor?payload=HEX`.
    Successor([u8; 32]),
    /// A part of the log: `GET /log?first=F&most=M`.
    Log(LogPart),
    /// What the desk is at: `GET /status`.
    Status,
    /// Whether the process answers: `GET /live`.
    Live,
    /// Whether a block could get a vote: `GET /health`.
    Health,
    /// What was told since the start, and what the desk is at: `GET /metrics`.
    Metrics,
    /// Nothing: this is wrong with the call.
    Refused(CallRefusal),
}

/// Why a call is refused. The numbers are fixed.
#[derive(Clone, Copy, Debug, PartialEq, Eq)]
pub enum CallRefusal {
    /// 1: there is no such call here.
    NoSuchCall,
    /// 2: it is asked by these methods.
    Method(Methods),
    /// 3: a number is not as it is printed or out of range, or a parameter is unknown or doubled, or a part of the log's chain is no id.
    Number,
    /// 4: over TCP, `Host` is missing or doubled, or names another machine.
    Host,
    /// 5: over TCP, there is an `Origin`.
    Origin,
    /// 6: over TCP, what is posted is not `application/octet-stream`.
    ContentType,
    /// 7: the view lies too far above the desk's vote view.
    Far,
    /// 8: the log has no vote in this view.
    NoVote,
    /// 9: the target is not in origin form (what stands behind a `#` is not looked at), has another query than is named, or an id or a payload that is not 64 digits in lower case.
    Target,
    /// 10: no header of this id is held.
    NotHeld,
    /// 11: the body has not the length that is wanted.
    Length,
    /// 12: it names another chain than the committee's, or none where each call must.
    Chain,
}

impl CallRefusal {
    /// The number of the refusal, which never changes.
    pub fn number(self) -> u8
        ensures { result ≡ call_refusal_number self }
    {
        match self {
            CallRefusal::NoSuchCall => 1,
            CallRefusal::Method(_) => 2,
            CallRefusal::Number => 3,
            CallRefusal::Host => 4,
            CallRefusal::Origin => 5,
            CallRefusal::ContentType => 6,
            CallRefusal::Far => 7,
            CallRefusal::NoVote => 8,
            CallRefusal::Target => 9,
            CallRefusal::NotHeld => 10,
            CallRefusal::Length => 11,
            CallRefusal::Chain => 12,
        }
    }

    /// The name of the refusal in docs/REFUSALS.md.
    pub fn name(self) -> &'static [u8]
        ensures name { result.now ≡ call_refusal_name self }
        ensures short { length result.now ≤ 20 }
    {
        match self {
            CallRefusal::NoSuchCall => b"NoSuchCall",
            CallRefusal::Method(_) => b"Method",
            CallRefusal::Number => b"Number",
            CallRefusal::Host => b"Host",
            CallRefusal::Origin => b"Origin",
            CallRefusal::ContentType => b"ContentType",
            CallRefusal::Far => b"Far",
            CallRefusal::NoVote => b"NoVote",
            CallRefusal::Target => b"Target",
            CallRefusal::NotHeld => b"NotHeld",
            CallRefusal::Length => b"Length",
            CallRefusal::Chain => b"Chain",
        }
    }

    /// The status of its response.
    pub fn status(self) -> StatusCode
        ensures { result ≡ call_refusal_status self }
    {
        match self {
            CallRefusal::NoSuchCall | CallRefusal::NoVote | CallRefusal::NotHeld => {
                StatusCode::NOT_FOUND
            }
            CallRefusal::Method(_) => StatusCode::METHOD_NOT_ALLOWED,
            CallRefusal::Number | CallRefusal::Target | CallRefusal::Length => {
                StatusCode::BAD_REQUEST
            }
            CallRefusal::Host | CallRefusal::Origin => StatusCode::FORBIDDEN,
            CallRefusal::ContentType => StatusCode::UNSUPPORTED_MEDIA_TYPE,
            CallRefusal::Far | CallRefusal::Chain => StatusCode::CONFLICT,
        }
    }
}
