//! Laws on kept logs. They do nothing when they run.

ghost use Rattle.audit_evidence.specs.Logs.{ReceivedLog};
ghost use Rattle.parallel_verify.specs.Collections.{MayGive};
ghost use Rattle.parallel_verify.specs.declared.source.Source.{Source as SourceValue};
ghost use Rattle.audit_run.specs.Kept.{HasPayloads};
ghost use Rattle.audit_run.specs.KeptLaws.{AKeptLogReadsBack, WhatIsKeptIsTheLog};

use log_transfer::Connector;

/// What is kept of a log reads as its frames, and as `Whole` just where the log was `Whole`; else as `Cut`.
pub fn a_kept_log_reads_back()
    ensures { AKeptLogReadsBack }
{}

/// What a source gives has as many frames as a log may have, each as long as a frame may be: so it reads back.
pub fn what_a_source_gives_can_be_kept<C: Connector>()
    ensures { (s : SourceValue C) (l : ReceivedLog) → MayGive C.gives s l → HasPayloads l }
{}

/// What a `LogWriter` wrote of a log of which it was told to its end, and no write failed, is what is kept of this log.
pub fn what_is_kept_is_the_log()
    ensures { WhatIsKeptIsTheLog }
{}
