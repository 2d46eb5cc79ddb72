//! When a committee renews another: its slots are the other's, or new ones that the other's keys signed for; and how the next
//! committee and its renewal are made of endorsements. Needs no threads, files or network.
#![tactic(auto)]

mod endorsed;
mod endorsements;
mod file;
mod format;
mod judging;
mod kinds;
mod laws;
mod making;
mod slot_statement;
mod slots;
mod text;

pub use format::{RENEWAL_HEAD_LEN, Renewal, RenewalFormRefusal};
pub use judging::{RenewalRefusal, renews};
pub use kinds::{SlotKind, slot_kind};
pub use laws::{
    a_renewal_keeps_the_weight, each_slot_is_kept_or_signed_for, new_keys_have_one_place,
};
pub use making::{Made, MakingRefusal, compose};
pub use slots::{Slots, is_kept};
