//! Writes a log while its frames come.

ghost use Rattle.std.specs.Prelude.{◌≡◌, codes, false, IfOk, OnErr};
ghost use Rattle.base_streams.specs.Streams.{Wrote};
ghost use Rattle.audit_run.specs.Written.{IsWritten, nothing_written};

use base_streams::{Fault, Sink};
use log_export::{begin_export, end_export, send_frame};
use log_format::Status;
use parallel_verify::Observer;
use std::marker::Model;

/// Writes what is kept of a log while its frames come: of one that ends as `Whole` its export, and of another the same frames
/// with no end mark, so that who reads them says `Cut`. What was written by the time that all ends holds what came so far. After a
/// fault it writes no more.
#[derive(Drop)]
pub struct LogWriter<W: Sink> {
    sink: W,
    count: u32,
    is_broken: bool,
}

impl<W: Sink> Model for LogWriter<W> {
    ghost use Rattle.audit_run.specs.Written.{Writing};

    ghost Value = { Writing };

    ghost view = { λ w. record {
      given = W.text w.sink;
      failed = W.failed w.sink;
      count = w.count;
      is_broken = w.is_broken;
    } };
}

impl<W: Sink> LogWriter<W> {
    /// Begins a log.
    pub fn begin(sink: W) -> Result<LogWriter<W>, Fault>
        ensures { IfOk result (λ w. Wrote (W.text sink) w.given (codes "HSL1") × (w.count ≡ 0)
            × (w.is_broken ≡ false)) }
    {
        let mut sink = sink;
        begin_export(&mut sink)?;
        Ok(LogWriter {
            sink,
            count: 0,
            is_broken: false,
        })
    }

    /// Its sink.
    pub fn into_sink(self) -> W
        ensures { W.text result ≡ self.given }
    {
        self.sink
    }

    /// Whether a write failed.
    pub fn is_broken(&self) -> bool
        ensures { result ≡ self.now.is_broken }
    {
        self.is_broken
    }
}

impl<W: Sink> Observer for LogWriter<W> {
    ghost told = { IsWritten };

    fn frame(&mut self, payload: &[u8]) {
        if self.is_broken {
            return;
        }
        if self.count == u32::MAX {
            self.is_broken = true;
            return;
        }
        match send_frame(&mut self.sink, payload) {
            Ok(()) => self.count += 1,
            Err(_) => self.is_broken = true,
        }
    }

    fn end(&mut self, status: Status) {
        if self.is_broken {
            return;
        }
        if status != Status::Whole {
            return;
        }
        match end_export(&mut self.sink, self.count) {
            Ok(()) => {}
            Err(_) => self.is_broken = true,
        }
    }

    ghost stays = { nothing_written };
}
