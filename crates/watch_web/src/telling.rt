//! What is told at each place.

ghost use Rattle.std.specs.Option.{option_copied};
ghost use Rattle.std.specs.Prelude.{◌≡◌, ◌++◌, OnOk, codes};
ghost use Rattle.std.specs.Str.{bytes_eq};
ghost use Rattle.http_server.specs.Response.{IsBlank};
ghost use Rattle.watch_web.specs.Metrics.{metrics_text};
ghost use Rattle.watch_web.specs.Reports.{report_text};
ghost use Rattle.watch_web.specs.Answers.{IsNowhereTold, IsPageTold, IsPictureTold, IsPlaceTold, IsVerdictTold, culprit_at};
ghost use Rattle.verdict_format.specs.Verdicts.{replica_in};
ghost use Rattle.watch_web.specs.Places.{verdict_path};
ghost use Rattle.watch_web.specs.Replies.{IsTold, health_status, health_text};

use crate::metrics::metrics_of;
use crate::page::page_of;
use crate::report::report_of;
use crate::target::{PageTarget, verdict_path};
use crate::writing::{Kind, tell};
use http::StatusCode;
use http_server::Response;
use std::alloc::{AllocError, Global};
use watch_report::{Culprit, Snapshot, is_old_round};

pub(crate) fn tell_nowhere(response: &mut Response) -> Result<(), AllocError>
    requires { IsBlank response.old }
    ensures { OnOk result (IsNowhereTold response.new) }
{
    tell(
        response,
        StatusCode::NOT_FOUND,
        Kind::Text,
        b"no such page\n",
    )
}

fn is_verdict_of(culprit: &Culprit, path: &[u8]) -> bool
    ensures { result ≡ bytes_eq path.now (verdict_path (replica_in culprit.now.verdict)) }
{
    path == verdict_path(culprit.verdict.replica()).as_bytes()
}

// The first culprit whose verdict is at this path.
fn culprit_at<'a>(path: &[u8], culprits: &'a [Culprit]) -> Option<&'a Culprit>
    ensures { option_copied result ≡ culprit_at path.now culprits.now }
{
    culprits.iter().find(|culprit| is_verdict_of(culprit, path))
}

fn tell_verdict(response: &mut Response, culprit: Option<&Culprit>) -> Result<(), AllocError>
    requires { IsBlank response.old }
    ensures { OnOk result (IsVerdictTold (option_copied culprit.entry) response.new) }
{
    match culprit {
        Some(culprit) => {
            let verdict = culprit.verdict.as_bytes();
            tell(response, StatusCode::OK, Kind::Verdict, verdict)
        }
        None => tell_nowhere(response),
    }
}

#[tactic(auto, unfolding(crate::specs::Replies::health_status))]
fn health_status(seen: &Snapshot, second: u64) -> StatusCode
    ensures { result ≡ health_status seen.now second }
{
    if is_old_round(seen.stamped, second) {
        return StatusCode::SERVICE_UNAVAILABLE;
    }
    if seen.is_unstored {
        return StatusCode::SERVICE_UNAVAILABLE;
    }
    StatusCode::OK
}

#[tactic(auto, unfolding(crate::specs::Replies::health_text))]
fn health_text(seen: &Snapshot, second: u64) -> &'static [u8]
    ensures { result.now ≡ health_text seen.now second }
{
    if is_old_round(seen.stamped, second) {
        return b"late\n";
    }
    if seen.is_unstored {
        return b"unstored\n";
    }
    b"ok\n"
}

fn tell_health(response: &mut Response, seen: &Snapshot, second: u64) -> Result<(), AllocError>
    requires { IsBlank response.old }
    ensures { OnOk result (IsTold (health_status seen.now second) Kind.Text
        (health_text seen.now second) response.new) }
{
    tell(
        response,
        health_status(seen, second),
        Kind::Text,
        health_text(seen, second),
    )
}

fn tell_metrics(alloc: Global, response: &mut Response, seen: &Snapshot) -> Result<(), AllocError>
    requires { IsBlank response.old }
    ensures { OnOk result (IsTold 200 Kind.Metrics (metrics_text seen.now) response.new) }
{
    let text = metrics_of(alloc, seen)?;
    tell(response, StatusCode::OK, Kind::Metrics, &text)
}

fn tell_report(alloc: Global, response: &mut Response, seen: &Snapshot) -> Result<(), AllocError>
    requires { IsBlank response.old }
    ensures { OnOk result (IsTold 200 Kind.Json (report_text seen.now) response.new) }
{
    let text = report_of(alloc, seen)?;
    tell(response, StatusCode::OK, Kind::Json, &text)
}

fn tell_picture(response: &mut Response, picture: &Option<String>) -> Result<(), AllocError>
    requires { IsBlank response.old }
    ensures { OnOk result (IsPictureTold picture.now response.new) }
{
    match picture {
        Some(text) => tell(response, StatusCode::OK, Kind::Picture, text.as_bytes()),
        None => tell_nowhere(response),
    }
}

fn tell_page(
    alloc: Global,
    response: &mut Response,
    seen: &Snapshot,
    second: u64,
) -> Result<(), AllocError>
    requires { IsBlank response.old }
    ensures { OnOk result (IsPageTold seen.now second PageTarget.Page response.new) }
{
    let text = page_of(alloc, seen, second, false)?;
    tell(response, StatusCode::OK, Kind::Html, &text)
}

fn tell_still(
    alloc: Global,
    response: &mut Response,
    seen: &Snapshot,
    second: u64,
) -> Result<(), AllocError>
    requires { IsBlank response.old }
    ensures { OnOk result (IsPageTold seen.now second PageTarget.Still response.new) }
{
    let text = page_of(alloc, seen, second, true)?;
    tell(response, StatusCode::OK, Kind::Html, &text)
}

// Tells what is at a place.
pub(crate) fn tell_place(
    alloc: Global,
    response: &mut Response,
    seen: &Snapshot,
    second: u64,
    path: &[u8],
    place: PageTarget,
) -> Result<(), AllocError>
    requires { IsBlank response.old }
    ensures { OnOk result (IsPlaceTold seen.now second path.now place response.new) }
{
    match place {
        PageTarget::Page => tell_page(alloc, response, seen, second),
        PageTarget::Still => tell_still(alloc, response, seen, second),
        PageTarget::Picture => tell_picture(response, &seen.picture),
        PageTarget::Health => tell_health(response, seen, second),
        PageTarget::Metrics => tell_metrics(alloc, response, seen),
        PageTarget::Report => tell_report(alloc, response, seen),
        PageTarget::Other => tell_verdict(response, culprit_at(path, &seen.culprits)),
        PageTarget::Nowhere => tell_nowhere(response),
    }
}
