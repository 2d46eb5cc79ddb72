//! Laws on what sources give: the contract is the law, which holds where the function is called.

ghost use Rattle.log_transfer.specs.Complete.{AWholeExportIsComplete, GivesItsLog};

use crate::connector::Connector;

/// Of a source that keeps nothing back the first of its log come, and all of it where the status is Whole;
/// else it is Failed.
pub fn a_complete_source_gives_its_log<C: Connector>()
    ensures { (source : C) → GivesItsLog (C.gives source) }
{}

/// A source in memory whose first connection gives the whole export of a log keeps nothing of it back.
pub fn a_whole_export_is_complete()
    ensures { AWholeExportIsComplete }
{}
