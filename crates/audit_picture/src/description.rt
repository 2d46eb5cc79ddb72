//! What a picture says to who does not see it: the conflict, and whom the verdicts accuse.

ghost use Rattle.std.specs.Prelude.{◌≡◌, ◌++◌, OnOk, string_bytes};
ghost use Rattle.audit_picture.specs.Descriptions.{AreAccused, IsDescription, accused_words, conflict_words, description_end, description_front, no_conflict_words, two_words};
ghost use Rattle.audit_picture.specs.Series.{Adds};

use crate::digits::short;
use crate::lanes::rule_name;
use crate::scene::{Culprit, Scene};
use culprit_search::Conflict;
use std::alloc::{AllocError, Global};
use std::fmt::Write;

#[tactic(auto, unfolding(crate::specs::Descriptions::two_words))]
fn put_two(text: &mut String, first: &str, second: &str) -> Result<(), AllocError>
    ensures { OnOk result (string_bytes text.new
        ≡ string_bytes text.old ++ two_words first.now second.now) }
{
    write!(
        text,
        "Conflict: blocks {first} and {second} are both committed."
    )
}

// Whether there is a conflict, and of which blocks.
#[tactic(auto, unfolding(crate::specs::Descriptions::no_conflict_words))]
fn put_conflict(
    text: &mut String,
    alloc: Global,
    conflict: Option<Conflict>,
) -> Result<(), AllocError>
    ensures { OnOk result (string_bytes text.new
        ≡ string_bytes text.old ++ conflict_words conflict) }
{
    let Some(conflict) = conflict else {
        return text.push_str("No conflict.");
    };
    let first = short(alloc, &conflict.first)?;
    let second = short(alloc, &conflict.second)?;
    put_two(text, first.as_str(), second.as_str())
}

// Whom a verdict accuses, of what, and by which views.
#[tactic(auto, unfolding(crate::specs::Descriptions::accused_words))]
fn put_accused(text: &mut String, culprit: &Culprit) -> Result<(), AllocError>
    ensures { OnOk result (string_bytes text.new
        ≡ string_bytes text.old ++ accused_words culprit.now) }
{
    let replica = culprit.replica;
    let rule = culprit.rule.number();
    let name = rule_name(culprit.rule);
    let earlier = culprit.earlier.view;
    let later = culprit.later.view;
    write!(
        text,
        " Replica {replica} broke rule {rule}, {name}, by votes in views {earlier} and {later}."
    )
}

fn put_all_accused(text: &mut String, culprits: &[Culprit]) -> Result<(), AllocError>
    ensures { OnOk result (Adds (string_bytes text.old) (string_bytes text.new)
        (AreAccused culprits.now)) }
{
    for (_index, culprit) in culprits.iter().enumerate() {
        put_accused(text, culprit)?;
    }
    Ok(())
}

/// The description: the conflict, and each culprit once, in the order of the replicas.
pub(crate) fn put_description(
    text: &mut String,
    alloc: Global,
    scene: &Scene,
) -> Result<(), AllocError>
    ensures { OnOk result (Adds (string_bytes text.old) (string_bytes text.new)
        (IsDescription scene.now.conflict scene.now.culprits.items)) }
{
    text.push_str("<desc>")?;
    put_conflict(text, alloc, scene.conflict)?;
    put_all_accused(text, &scene.culprits)?;
    text.push_str("</desc>\n")
}
