//! Laws on what streams say: the contract is the law, which holds where the function is called. Nothing is
//! computed.

ghost use Rattle.log_format.specs.ReadingLaws.{AStreamHasOneReading, EveryStreamHasAReading, AnExportReadsBack, ALongExportIsTooLong, ACutExportHasTheFirstFrames};

/// A stream has one reading: its frames and its status.
pub fn a_stream_has_one_reading()
    ensures { AStreamHasOneReading }
{}

/// Every stream of bytes has a reading.
pub fn every_stream_has_a_reading()
    ensures { EveryStreamHasAReading }
{}

/// An export reads back as the payloads that were asked for, and Whole; where there is no room for all of them,
/// as those that there is room for, and TooLong.
pub fn an_export_reads_back()
    ensures whole { AnExportReadsBack }
    ensures too_long { ALongExportIsTooLong }
{}

/// What came of an export that was cut anywhere reads as the first of its frames, and is Whole or
/// unfinished, never Broken or TooLong.
pub fn a_cut_export_has_the_first_frames()
    ensures { ACutExportHasTheFirstFrames }
{}
