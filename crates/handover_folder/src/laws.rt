//! Laws on words: each function's contract is the law, which holds where the function is called. Nothing is computed.

ghost use Rattle.handover_folder.specs.Histories.{ACutOffWordMayBeFound, ACutOffWordMayBeLost, AtMostOneEndorsement, AtMostOneGoneOver, CrashesLeaveWhatWasTold, WhatWasToldIsFound};
ghost use Rattle.handover_folder.specs.Refusals.{WhatIsRefusedSaysNothing};
ghost use Rattle.handover_folder.specs.Words.{AnImageSaysOneThing, WordsHaveOneSpelling};

/// No history of one journal, of calls, crashes and recoveries, tells two different endorsements, nor two different words that
/// the signer has gone over.
pub fn at_most_one_word()
    ensures endorsed { AtMostOneEndorsement }
    ensures gone { AtMostOneGoneOver }
{}

/// A word that was told, by `endorse`, `go_over` or a recovery, is among what each later recovery finds, and what each later
/// crash leaves, also one in an `endorse` or a `go_over`.
pub fn a_told_word_is_found()
    ensures found { WhatWasToldIsFound }
    ensures left { CrashesLeaveWhatWasTold }
{}

/// Two words of the same bytes are one, and bytes say one thing at most.
pub fn words_have_one_spelling()
    ensures words { WordsHaveOneSpelling }
    ensures images { AnImageSaysOneThing }
{}

/// Of a word whose writing a crash or a fault cut off, both are histories: that it is found and told again, and that it
/// is not and another word is told. The words that were there before stay.
pub fn a_word_cut_off_may_be_found()
    ensures found { ACutOffWordMayBeFound }
    ensures lost { ACutOffWordMayBeLost }
{}

/// Bytes that `recover` refuses, but for `Memory` and `Device`, say nothing: neither any words nor that
/// there are none.
pub fn what_is_refused_says_nothing()
    ensures { WhatIsRefusedSaysNothing }
{}
