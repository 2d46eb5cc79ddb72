//! What a desk tells of itself, as JSON.

ghost use Rattle.std.specs.Prelude.{◌≡◌, ◌≤◌, ◌+◌, ◌++◌, [], length};
ghost use Rattle.blocks.specs.Genesis.{chain_id_of};
ghost use Rattle.signer_service.specs.Healths.{trouble_of};
ghost use Rattle.signer_service.specs.Responses.{IsReady, fields_of_kind};
ghost use Rattle.signer_service.specs.Statuses.{IsStatusTold, ballot_text, committed_text, counts_text, going_text, name_text, next_name, reserve_name, state_name, state_text, status_text, trouble_name, views_text};
ghost use Rattle.signer_service.specs.declared.writing.TheConstants.{ROOM};

use crate::going::Going;
use crate::halt::Halt;
use crate::health::trouble_of;
use crate::writing::{Kind, put, put_field, put_number};
use base_text::id_digits;
use blocks::{Ballot, CommitteeView, Id};
use http_server::{Response, Rope};
use signer_answers::{NextKeys, Reserve};
use vote_desk::{DeskError, DeskStatus};

// Tells what a desk is at.
pub(crate) fn tell_status(
    response: &mut Response,
    committee: &CommitteeView,
    replica: u16,
    status: &DeskStatus,
    halted: &Option<Halt>,
    committed: &Option<Ballot>,
    going: &Going,
)
    requires { IsReady (fields_of_kind Kind.Json) response.old }
    ensures { IsStatusTold committee.now replica status.now halted.now committed.now going.now
        response.new }
{
    put_status(
        &mut response.body,
        &committee.chain(),
        replica,
        status,
        halted,
        committed,
        going,
    );
}

fn put_status(
    body: &mut Rope,
    chain: &Id,
    replica: u16,
    status: &DeskStatus,
    halted: &Option<Halt>,
    committed: &Option<Ballot>,
    going: &Going,
)
    requires { (body.old.items ≡ []) × (ROOM ≤ body.old.spare) }
    ensures { body.new.items ≡ status_text chain.now replica status.now halted.now committed.now
        going.now }
{
    put_name(body, chain, replica);
    put_state(body, status, halted);
    put_views(body, status);
    put_ballot(body, status.lock.view, &status.lock.id);
    put_counts(body, status);
    put_going(body, going);
    put(body, b",\"committed\":");
    put_committed(body, committed);
    put(body, b"}\n");
}

fn put_name(body: &mut Rope, chain: &Id, replica: u16)
    requires { 256 ≤ body.old.spare }
    ensures items { body.new.items ≡ body.old.items ++ name_text chain.now replica }
    ensures spare { body.old.spare ≤ body.new.spare + 256 }
{
    put(body, b"{\"format\":\"wezhgula-status-1\",\"chain\":\"");
    put(body, &id_digits(chain));
    put(body, b"\",\"replica\":");
    put_number(body, replica);
}

fn put_state(body: &mut Rope, status: &DeskStatus, halted: &Option<Halt>)
    requires { 256 ≤ body.old.spare }
    ensures items { body.new.items ≡ body.old.items ++ state_text status.now halted.now }
    ensures spare { body.old.spare ≤ body.new.spare + 256 }
{
    put(body, b",\"state\":\"");
    put(body, state_name(halted, trouble_of(status)));
    put(body, b"\"");
}

fn state_name(halted: &Option<Halt>, trouble: Option<DeskError>) -> &'static [u8]
    ensures name { result.now ≡ state_name halted.now trouble }
    ensures short { length result.now ≤ 20 }
{
    match halted {
        Some(Halt::PutBack(_)) => b"put back",
        Some(Halt::Asking) => b"asking",
        None => trouble_name(trouble),
    }
}

fn trouble_name(trouble: Option<DeskError>) -> &'static [u8]
    ensures name { result.now ≡ trouble_name trouble }
    ensures short { length result.now ≤ 20 }
{
    match trouble {
        None => b"voting",
        Some(DeskError::LogFull | DeskError::Core(_)) => b"full",
        Some(DeskError::KeySpent) => b"spent",
        Some(_) => b"stopped",
    }
}

fn put_views(body: &mut Rope, status: &DeskStatus)
    requires { 256 ≤ body.old.spare }
    ensures items { body.new.items ≡ body.old.items ++ views_text status.now }
    ensures spare { body.old.spare ≤ body.new.spare + 256 }
{
    put_field(body, b",\"vote_view\":\"", status.vote_view);
    put_field(body, b"\",\"stored_vote_view\":\"", status.stored_vote_view);
    put(body, b"\",\"lock\":");
}

fn put_ballot(body: &mut Rope, view: u64, id: &Id)
    requires { 256 ≤ body.old.spare }
    ensures items { body.new.items ≡ body.old.items ++ ballot_text view id.now }
    ensures spare { body.old.spare ≤ body.new.spare + 256 }
{
    put(body, b"{\"view\":\"");
    put_number(body, view);
    put(body, b"\",\"id\":\"");
    put(body, &id_digits(id));
    put(body, b"\"}");
}

fn put_counts(body: &mut Rope, status: &DeskStatus)
    requires { 320 ≤ body.old.spare }
    ensures items { body.new.items ≡ body.old.items ++ counts_text status.now }
    ensures spare { body.old.spare ≤ body.new.spare + 320 }
{
    put_field(body, b",\"headers\":", status.headers);
    put_field(body, b",\"entries\":", status.entries);
    put_field(body, b",\"entries_left\":", status.left.entries);
    put_field(body, b",\"indices_left\":", status.left.indices);
}

fn put_going(body: &mut Rope, going: &Going)
    requires { 320 ≤ body.old.spare }
    ensures items { body.new.items ≡ body.old.items ++ going_text going.now }
    ensures spare { body.old.spare ≤ body.new.spare + 320 }
{
    put(body, b",\"next\":\"");
    put(body, next_name(going.progress.next));
    put(body, b"\",\"reserve\":\"");
    put(body, reserve_name(going.reserve));
    put_field(body, b"\",\"committees\":", going.progress.committees);
    put_field(body, b",\"kept_committees\":", going.progress.kept);
}

fn next_name(next: NextKeys) -> &'static [u8]
    ensures name { result.now ≡ next_name next }
    ensures short { length result.now ≤ 20 }
{
    match next {
        NextKeys::None => b"none",
        NextKeys::Making => b"making",
        NextKeys::Made => b"made",
        NextKeys::Endorsed => b"endorsed",
        NextKeys::Stopped => b"stopped",
    }
}

fn reserve_name(reserve: Reserve) -> &'static [u8]
    ensures name { result.now ≡ reserve_name reserve }
    ensures short { length result.now ≤ 20 }
{
    match reserve {
        Reserve::None => b"none",
        Reserve::Ordinary => b"ordinary",
        Reserve::Handover => b"handover",
    }
}

fn put_committed(body: &mut Rope, committed: &Option<Ballot>)
    requires { 256 ≤ body.old.spare }
    ensures items { body.new.items ≡ body.old.items ++ committed_text committed.now }
    ensures spare { body.old.spare ≤ body.new.spare + 256 }
{
    match committed {
        None => put(body, b"null"),
        Some(ballot) => put_ballot(body, ballot.view, &ballot.id),
    }
}
