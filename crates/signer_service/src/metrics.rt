//! The metrics of a signer, as Prometheus reads them.

ghost use Rattle.std.specs.Prelude.{◌≡◌, ◌≤◌, ◌+◌, ◌++◌, [], OnOk};
ghost use Rattle.signer_service.specs.Metrics.{IsMetricsTold, answers_text, arguments_text, asking_text, calls_text, committed_view, committees_text, doors_text, going_text, is_stopped, mine_text, next_number, next_text, reserve_number, reserve_text, number_of, process_text, refusals_text, rooms_text, signer_text, source_text, sources_text, times_text, views_text};
ghost use Rattle.signer_service.specs.Responses.{HasRoom, fields_of_kind};

use crate::going::Going;
use crate::tallies::Numbers;
use crate::writing::{Kind, put, put_field};
use blocks::Ballot;
use bytes::BufMut;
use http_server::{Response, Rope};
use signer_answers::{NextKeys, Reserve};
use std::alloc::AllocError;
use vote_desk::DeskStatus;

// How much room the metrics take at the most, but for the sources.
pub(crate) const METRICS_ROOM: usize = 14_592;

// How much room a source's line takes at the most.
const SOURCE_ROOM: usize = 128;

// What the metrics tell.
#[derive(Drop)]
pub(crate) struct Measured {
    pub numbers: Numbers,
    pub status: DeskStatus,
    /// What the log was found to be put back by, if it was.
    pub put_back: Option<Ballot>,
    pub committed: Option<Ballot>,
    /// Whether others are still asked.
    pub is_asking: bool,
    pub going: Going,
    /// Of each source that is asked, whether its log was read whole.
    pub heard: Vec<bool>,
}

// Tells the metrics.
pub(crate) fn tell_metrics(response: &mut Response, measured: &Measured) -> Result<(), AllocError>
    requires { HasRoom (fields_of_kind Kind.Metrics) METRICS_ROOM response.old }
    ensures { OnOk result (IsMetricsTold measured.now response.new) }
{
    put_signer(
        &mut response.body,
        &measured.numbers,
        &measured.status,
        view_of(&measured.committed),
        number_of(is_stopped(&measured.status, &measured.put_back)),
        number_of(measured.is_asking),
        &measured.going,
    );
    put_sources(&mut response.body, &measured.heard)
}

#[tactic(auto, unfolding(crate::specs::Metrics::signer_text))]
fn put_signer(
    body: &mut Rope,
    numbers: &Numbers,
    status: &DeskStatus,
    committed: u64,
    stopped: u8,
    asking: u8,
    going: &Going,
)
    requires { (body.old.items ≡ []) × (METRICS_ROOM ≤ body.old.spare) }
    ensures { body.new.items ≡ signer_text numbers.now status.now committed stopped asking
        going.now }
{
    put_answers(body, numbers);
    put_refusals(body, numbers);
    put_times(body, numbers);
    put_calls(body, numbers);
    put_doors(body, numbers);
    put_arguments(body, numbers);
    put_mine(body, numbers);
    put_views(body, status, committed);
    put_rooms(body, status, stopped);
    put_asking(body, asking);
    put_going(body, going);
    put_process(body, numbers);
}

fn view_of(committed: &Option<Ballot>) -> u64
    ensures { result ≡ committed_view committed.now }
{
    match committed {
        Some(ballot) => ballot.view,
        None => 0,
    }
}

fn is_stopped(status: &DeskStatus, put_back: &Option<Ballot>) -> bool
    ensures { result ≡ is_stopped status.now put_back.now }
{
    match put_back {
        Some(_) => true,
        None => status.stopped,
    }
}

fn number_of(is_so: bool) -> u8
    ensures { result ≡ number_of is_so }
{
    if is_so { 1 } else { 0 }
}

fn put_answers(body: &mut Rope, numbers: &Numbers)
    requires { 1200 ≤ body.old.spare }
    ensures items { body.new.items ≡ body.old.items
        ++ answers_text numbers.now }
    ensures spare { body.old.spare ≤ body.new.spare + 1200 }
{
    put_field(
        body,
        b"# HELP hs_signer_answers_total What blocks and timeouts were answered.\n# TYPE hs_signer_answers_total counter\nhs_signer_answers_total{answer=\"voted\"} ",
        numbers.voted,
    );
    put_field(
        body,
        b"\nhs_signer_answers_total{answer=\"raised\"} ",
        numbers.raised,
    );
    put_field(
        body,
        b"\nhs_signer_answers_total{answer=\"held\"} ",
        numbers.held,
    );
    put_field(
        body,
        b"\nhs_signer_answers_total{answer=\"timeout\"} ",
        numbers.timeouts,
    );
}

fn put_refusals(body: &mut Rope, numbers: &Numbers)
    requires { 1200 ≤ body.old.spare }
    ensures items { body.new.items ≡ body.old.items
        ++ refusals_text numbers.now }
    ensures spare { body.old.spare ≤ body.new.spare + 1200 }
{
    put_field(
        body,
        b"\nhs_signer_answers_total{answer=\"header\"} ",
        numbers.refused_headers,
    );
    put_field(
        body,
        b"\nhs_signer_answers_total{answer=\"certificate\"} ",
        numbers.refused_certificates,
    );
    put_field(
        body,
        b"\nhs_signer_answers_total{answer=\"block\"} ",
        numbers.refused_blocks,
    );
    put_field(
        body,
        b"\nhs_signer_answers_total{answer=\"core\"} ",
        numbers.refused_by_core,
    );
}

fn put_times(body: &mut Rope, numbers: &Numbers)
    requires { 1200 ≤ body.old.spare }
    ensures items { body.new.items ≡ body.old.items
        ++ times_text numbers.now }
    ensures spare { body.old.spare ≤ body.new.spare + 1200 }
{
    put_field(
        body,
        b"\nhs_signer_answers_total{answer=\"desk\"} ",
        numbers.refused_by_desk,
    );
    put_field(
        body,
        b"\n# HELP hs_signer_block_seconds How long blocks took, with their checks.\n# TYPE hs_signer_block_seconds summary\nhs_signer_block_seconds_sum ",
        numbers.block_micros,
    );
    put_field(body, b"e-6\nhs_signer_block_seconds_count ", numbers.blocks);
}

fn put_calls(body: &mut Rope, numbers: &Numbers)
    requires { 1200 ≤ body.old.spare }
    ensures items { body.new.items ≡ body.old.items
        ++ calls_text numbers.now }
    ensures spare { body.old.spare ≤ body.new.spare + 1200 }
{
    put_field(
        body,
        b"\n# HELP hs_signer_refused_calls_total Calls that were refused, by reason.\n# TYPE hs_signer_refused_calls_total counter\nhs_signer_refused_calls_total{reason=\"NoSuchCall\"} ",
        numbers.no_such_calls,
    );
    put_field(
        body,
        b"\nhs_signer_refused_calls_total{reason=\"Method\"} ",
        numbers.wrong_methods,
    );
    put_field(
        body,
        b"\nhs_signer_refused_calls_total{reason=\"Number\"} ",
        numbers.bad_numbers,
    );
    put_field(
        body,
        b"\nhs_signer_refused_calls_total{reason=\"Host\"} ",
        numbers.bad_hosts,
    );
}

fn put_doors(body: &mut Rope, numbers: &Numbers)
    requires { 1200 ≤ body.old.spare }
    ensures items { body.new.items ≡ body.old.items
        ++ doors_text numbers.now }
    ensures spare { body.old.spare ≤ body.new.spare + 1200 }
{
    put_field(
        body,
        b"\nhs_signer_refused_calls_total{reason=\"Origin\"} ",
        numbers.origins,
    );
    put_field(
        body,
        b"\nhs_signer_refused_calls_total{reason=\"ContentType\"} ",
        numbers.bad_content_types,
    );
    put_field(
        body,
        b"\nhs_signer_refused_calls_total{reason=\"Far\"} ",
        numbers.far,
    );
    put_field(
        body,
        b"\nhs_signer_refused_calls_total{reason=\"NoVote\"} ",
        numbers.no_votes,
    );
}

fn put_arguments(body: &mut Rope, numbers: &Numbers)
    requires { 1200 ≤ body.old.spare }
    ensures items { body.new.items ≡ body.old.items
        ++ arguments_text numbers.now }
    ensures spare { body.old.spare ≤ body.new.spare + 1200 }
{
    put_field(
        body,
        b"\nhs_signer_refused_calls_total{reason=\"Target\"} ",
        numbers.bad_targets,
    );
    put_field(
        body,
        b"\nhs_signer_refused_calls_total{reason=\"NotHeld\"} ",
        numbers.not_held,
    );
    put_field(
        body,
        b"\nhs_signer_refused_calls_total{reason=\"Length\"} ",
        numbers.bad_lengths,
    );
    put_field(
        body,
        b"\nhs_signer_refused_calls_total{reason=\"Chain\"} ",
        numbers.other_chains,
    );
}

fn put_mine(body: &mut Rope, numbers: &Numbers)
    requires { 1200 ≤ body.old.spare }
    ensures items { body.new.items ≡ body.old.items
        ++ mine_text numbers.now }
    ensures spare { body.old.spare ≤ body.new.spare + 1200 }
{
    put_field(
        body,
        b"\n# HELP hs_signer_not_mine_total Committees that callers showed or named in which the replica has keys that are not its own.\n# TYPE hs_signer_not_mine_total counter\nhs_signer_not_mine_total ",
        numbers.not_mine,
    );
}

fn put_views(body: &mut Rope, status: &DeskStatus, committed: u64)
    requires { 1200 ≤ body.old.spare }
    ensures items { body.new.items ≡ body.old.items
        ++ views_text status.now committed }
    ensures spare { body.old.spare ≤ body.new.spare + 1200 }
{
    put_field(
        body,
        b"\n# HELP hs_signer_vote_view The greatest view of a vote or a timeout.\n# TYPE hs_signer_vote_view gauge\nhs_signer_vote_view ",
        status.vote_view,
    );
    put_field(
        body,
        b"\n# HELP hs_signer_lock_view The view of the locked block.\n# TYPE hs_signer_lock_view gauge\nhs_signer_lock_view ",
        status.lock.view,
    );
    put_field(
        body,
        b"\n# HELP hs_signer_committed_view The greatest committed view that was told, or 0.\n# TYPE hs_signer_committed_view gauge\nhs_signer_committed_view ",
        committed,
    );
    put_field(
        body,
        b"\n# HELP hs_signer_entries How many entries the log has.\n# TYPE hs_signer_entries gauge\nhs_signer_entries ",
        status.entries,
    );
}

fn put_rooms(body: &mut Rope, status: &DeskStatus, stopped: u8)
    requires { 1200 ≤ body.old.spare }
    ensures items { body.new.items ≡ body.old.items
        ++ rooms_text status.now stopped }
    ensures spare { body.old.spare ≤ body.new.spare + 1200 }
{
    put_field(
        body,
        b"\n# HELP hs_signer_entries_left How many more it has room for.\n# TYPE hs_signer_entries_left gauge\nhs_signer_entries_left ",
        status.left.entries,
    );
    put_field(
        body,
        b"\n# HELP hs_signer_indices_left How many votes the keys can still sign.\n# TYPE hs_signer_indices_left gauge\nhs_signer_indices_left ",
        status.left.indices,
    );
    put_field(
        body,
        b"\n# HELP hs_signer_headers How many headers are held.\n# TYPE hs_signer_headers gauge\nhs_signer_headers ",
        status.headers,
    );
    put_field(
        body,
        b"\n# HELP hs_signer_stopped Whether a disk failed, or the log was put back.\n# TYPE hs_signer_stopped gauge\nhs_signer_stopped ",
        stopped,
    );
}

fn put_asking(body: &mut Rope, asking: u8)
    requires { 400 ≤ body.old.spare }
    ensures items { body.new.items ≡ body.old.items ++ asking_text asking }
    ensures spare { body.old.spare ≤ body.new.spare + 400 }
{
    put_field(
        body,
        b"\n# HELP hs_signer_asking Whether others are still asked for votes of this replica.\n# TYPE hs_signer_asking gauge\nhs_signer_asking ",
        asking,
    );
}

fn put_going(body: &mut Rope, going: &Going)
    requires { 1200 ≤ body.old.spare }
    ensures items { body.new.items ≡ body.old.items ++ going_text going.now }
    ensures spare { body.old.spare ≤ body.new.spare + 1200 }
{
    put_next_of(body, going);
    put_reserve_of(body, going);
    put_committees_of(body, going);
}

fn put_next_of(body: &mut Rope, going: &Going)
    requires { 300 ≤ body.old.spare }
    ensures items { body.new.items ≡ body.old.items
        ++ next_text (next_number going.now.progress.next) }
    ensures spare { body.old.spare ≤ body.new.spare + 300 }
{
    put_next(body, next_number(going.progress.next));
}

fn put_reserve_of(body: &mut Rope, going: &Going)
    requires { 300 ≤ body.old.spare }
    ensures items { body.new.items ≡ body.old.items
        ++ reserve_text (reserve_number going.now.reserve) }
    ensures spare { body.old.spare ≤ body.new.spare + 300 }
{
    put_reserve(body, reserve_number(going.reserve));
}

fn put_committees_of(body: &mut Rope, going: &Going)
    requires { 600 ≤ body.old.spare }
    ensures items { body.new.items ≡ body.old.items
        ++ committees_text going.now.progress.committees going.now.progress.kept }
    ensures spare { body.old.spare ≤ body.new.spare + 600 }
{
    put_committees(body, going.progress.committees, going.progress.kept);
}

fn next_number(next: NextKeys) -> u8
    ensures { result ≡ next_number next }
{
    match next {
        NextKeys::None => 0,
        NextKeys::Making => 1,
        NextKeys::Made => 2,
        NextKeys::Endorsed => 3,
        NextKeys::Stopped => 4,
    }
}

fn put_next(body: &mut Rope, next: u8)
    requires { 300 ≤ body.old.spare }
    ensures items { body.new.items ≡ body.old.items ++ next_text next }
    ensures spare { body.old.spare ≤ body.new.spare + 300 }
{
    put_field(
        body,
        b"\n# HELP hs_signer_next How far the next keys are: 0 none are made, 1 they are made now, 2 made, 3 endorsed, 4 stopped.\n# TYPE hs_signer_next gauge\nhs_signer_next ",
        next,
    );
}

fn reserve_number(reserve: Reserve) -> u8
    ensures { result ≡ reserve_number reserve }
{
    match reserve {
        Reserve::None => 0,
        Reserve::Ordinary => 1,
        Reserve::Handover => 2,
    }
}

fn put_reserve(body: &mut Rope, reserve: u8)
    requires { 300 ≤ body.old.spare }
    ensures items { body.new.items ≡ body.old.items ++ reserve_text reserve }
    ensures spare { body.old.spare ≤ body.new.spare + 300 }
{
    put_field(
        body,
        b"\n# HELP hs_signer_reserve For which blocks too little is left: 0 none, 1 ordinary ones, 2 all.\n# TYPE hs_signer_reserve gauge\nhs_signer_reserve ",
        reserve,
    );
}

fn put_committees(body: &mut Rope, committees: u32, kept: u32)
    requires { 600 ≤ body.old.spare }
    ensures items { body.new.items ≡ body.old.items ++ committees_text committees kept }
    ensures spare { body.old.spare ≤ body.new.spare + 600 }
{
    put_field(
        body,
        b"\n# HELP hs_signer_committees_total How many committees the signer was in, this one among them.\n# TYPE hs_signer_committees_total counter\nhs_signer_committees_total ",
        committees,
    );
    put_field(
        body,
        b"\n# HELP hs_signer_kept_committees In how many committees before this one it had the keys that it has.\n# TYPE hs_signer_kept_committees gauge\nhs_signer_kept_committees ",
        kept,
    );
}

fn put_process(body: &mut Rope, numbers: &Numbers)
    requires { 1200 ≤ body.old.spare }
    ensures items { body.new.items ≡ body.old.items
        ++ process_text numbers.now }
    ensures spare { body.old.spare ≤ body.new.spare + 1200 }
{
    put_field(
        body,
        b"\n# HELP hs_build_info The version of this program.\n# TYPE hs_build_info gauge\nhs_build_info{version=\"0.9.0\"} ",
        1u8,
    );
    put_field(
        body,
        b"\n# HELP process_start_time_seconds When the process began, in seconds since 1970.\n# TYPE process_start_time_seconds gauge\nprocess_start_time_seconds ",
        numbers.started,
    );
}

// ---- the sources

// Room is made for each line as it comes, since it depends on how many there are.
fn put_sources(body: &mut Rope, heard: &[bool]) -> Result<(), AllocError>
    ensures { OnOk result (body.new.items ≡ body.old.items ++ sources_text heard.now) }
{
    body.put_slice(
        b"\n# HELP hs_signer_source_heard Whether the log of a source that is asked was read whole when it was asked last.\n# TYPE hs_signer_source_heard gauge",
    )?;
    for at in 0..heard.len() {
        body.reserve(SOURCE_ROOM)?;
        put_source(body, at, heard[at]);
    }
    body.put_slice(b"\n")
}

fn put_source(body: &mut Rope, at: usize, heard: bool)
    requires { SOURCE_ROOM ≤ body.old.spare }
    ensures { body.new.items ≡ body.old.items ++ source_text at heard }
{
    put_field(body, b"\nhs_signer_source_heard{source=\"", at);
    put_field(body, b"\"} ", number_of(heard));
}
