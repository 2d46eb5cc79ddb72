//! Laws on journals: the contract is the law, which holds where the function is called. Nothing is
//! computed.

ghost use Rattle.stable_log.specs.Image.{AnImageStandsForOneList};

/// Bytes stand for one list at most.
pub fn an_image_stands_for_one_list()
    ensures { AnImageStandsForOneList }
{}
