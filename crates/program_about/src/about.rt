//! How `hs_show` is called.

use program_help::Help;

/// What `hs_show` says of itself.
pub(crate) const SHOW: Help = Help {
    name: "hs_show",
    text: "hs_show FILE.. [--committee C]\n\
hs_show --statement VERDICT --committee C\n\
hs_show --statement VERDICT --lineage DIR --committee C0\n\
hs_show --explain LINE..\n\
hs_show --help\n\
hs_show --version\n",
};
