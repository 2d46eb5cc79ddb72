//! Laws on known headers: the contract is the law, which holds where the function is called. Nothing is
//! computed. That a block has one chain is the law `blocks::a_block_has_one_chain`.

ghost use Rattle.ancestry.specs.KnownLaws.{AnIdNamesOneHeader, LinkedByIdIsLinked, AncestorByIdIsAncestor, GenesisIsLinked, NoBlockIsItsOwnAncestor, GenesisMayStandAmongTheHeaders};

/// No two known headers have one id, so it makes no difference whether a known header or its id is asked for.
pub fn an_id_names_one_header()
    ensures apart { AnIdNamesOneHeader }
    ensures linked { LinkedByIdIsLinked }
    ensures ancestor { AncestorByIdIsAncestor }
{}

/// Genesis is linked, and no block is its own ancestor.
pub fn chains_end_in_genesis()
    ensures linked { GenesisIsLinked }
    ensures none { NoBlockIsItsOwnAncestor }
{}

/// Where genesis stands among the headers, chains among them are those among genesis and the headers.
pub fn genesis_may_stand_among_the_headers()
    ensures { GenesisMayStandAmongTheHeaders }
{}
