//! What a watch knew, as a service.

ghost use Rattle.std.specs.Prelude.{◌≡◌, OnOk};
ghost use Rattle.http_server.specs.Response.{IsBlank};
ghost use Rattle.watch_web.specs.Answers.{IsAnswered};

use crate::answering::answer;
use base_shared::Shared;
use bytes::Bytes;
use http::Request;
use http_server::{Response, Service};
use std::alloc::{AllocError, Global};
use std::sync::{Mutex, Wait};
use std::time::{Clock, SystemTime, UNIX_EPOCH};
use watch_report::Snapshot;

/// What a watch knows, as those see it who ask over HTTP. It answers each request by what the watch knows then.
#[derive(Drop)]
pub struct Watcher<'a, R: Wait + Clock> {
    rt: &'a R,
    alloc: Global,
    hosts: &'a [String],
    seen: &'a Mutex<Shared<Snapshot>>,
}

impl<'a, R: Wait + Clock> Watcher<'a, R> {
    /// Over what the watch knows. A `Host` may be `localhost`, an address, or one of these names.
    pub fn new(
        rt: &'a R,
        alloc: Global,
        hosts: &'a [String],
        seen: &'a Mutex<Shared<Snapshot>>,
    ) -> Watcher<'a, R>
        ensures { result.hosts.now ≡ hosts.now }
    {
        Watcher {
            rt,
            alloc,
            hosts,
            seen,
        }
    }

    fn answer_now(
        &self,
        request: &Request<Bytes>,
        response: &mut Response,
    ) -> Result<(), AllocError>
        requires { IsBlank response.old }
        ensures { OnOk result (IsAnswered self.now.hosts.now request.now response.new) }
    {
        let second = seconds_now(self.rt);
        let seen = self.seen_now()?;
        answer_by(
            self.alloc,
            self.hosts,
            seen.get(),
            second,
            request,
            response,
        )
    }

    // What the watch knows. The lock is held for no longer than it takes to have it.
    fn seen_now(&self) -> Result<Shared<Snapshot>, AllocError> {
        let seen = self.seen.lock(self.rt);
        seen.again()
    }
}

impl<'a, R: Wait + Clock> Service for Watcher<'a, R> {
    ghost answers = { λ old request response new.
        IsAnswered old.hosts.now request response × (new.hosts ≡ old.hosts) };

    fn call(
        &mut self,
        request: &Request<Bytes>,
        response: &mut Response,
    ) -> Result<(), AllocError> {
        self.answer_now(request, response)
    }
}

// Answers by something that the watch knew.
fn answer_by(
    alloc: Global,
    hosts: &[String],
    seen: &Snapshot,
    second: u64,
    request: &Request<Bytes>,
    response: &mut Response,
) -> Result<(), AllocError>
    requires { IsBlank response.old }
    ensures { OnOk result (IsAnswered hosts.now request.now response.new) }
{
    answer(alloc, hosts, seen, second, request, response)?;
    Ok(())
}

/// The seconds since 1970, or 0 where the clock does not tell them.
pub fn seconds_now(clock: &impl Clock) -> u64 {
    let Ok(now) = SystemTime::now(clock) else {
        return 0;
    };
    match now.duration_since(UNIX_EPOCH) {
        Ok(since) => since.as_secs(),
        Err(_) => 0,
    }
}
