//! Laws on what a desk knows and tells.

ghost use Rattle.watch_desk.specs.DeskLaws.{ADeskNamesJustTheCulprits, ACommitIsNotToldTwice, AConflictIsNotToldTwice, ACulpritIsNotToldTwice, AHandoverIsNotToldTwice, WhatIsServedIsAProof};

/// A replica has a known verdict exactly if it had one before, or is a culprit of the evidence that was audited. With nothing kept
/// at the start these are the culprits of the evidence so far, since culprits stay.
pub fn a_desk_names_just_the_culprits()
    ensures { ADeskNamesJustTheCulprits }
{}

/// What a round told is not told in the next round again: no commit, no verdict on the same replica, not the same conflict, and no
/// handover.
pub fn nothing_is_told_twice()
    ensures commits { ACommitIsNotToldTwice }
    ensures culprits { ACulpritIsNotToldTwice }
    ensures conflict { AConflictIsNotToldTwice }
    ensures handover { AHandoverIsNotToldTwice }
{}

/// Where each known verdict is a proof under the committee of the evidence, so is each after an audit of it.
pub fn what_is_served_is_a_proof()
    ensures { WhatIsServedIsAProof }
{}
