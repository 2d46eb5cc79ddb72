//! The grammar of the command line, as `clap` is told it.

use clap::{Arg, ArgAction, ArgMatches, Command as Grammar, Error};
use std::alloc::{AllocError, Global};

/// Reads the words, without the program's name, by the grammar.
pub(crate) fn parsed<'a>(alloc: Global, words: &'a [String]) -> Result<ArgMatches<'a>, Error> {
    let grammar = with_keygen(alloc, grammar(alloc))?;
    let grammar = with_committee(alloc, grammar)?;
    let grammar = with_weighted(alloc, grammar)?;
    let grammar = with_replica(alloc, grammar)?;
    let grammar = with_audit(alloc, grammar)?;
    let grammar = with_migrate(alloc, grammar)?;
    let grammar = with_export(alloc, grammar)?;
    let grammar = with_renewal(alloc, grammar)?;
    grammar.try_get_matches_from(words)
}

// The program alone. It wants a subcommand.
fn grammar<'a>(alloc: Global) -> Grammar<'a> {
    Grammar::new(alloc, "hs_tool")
        .no_binary_name(true)
        .subcommand_required(true)
}

fn with_keygen<'a>(alloc: Global, grammar: Grammar<'a>) -> Result<Grammar<'a>, AllocError> {
    // SEED and DIR, or DIR alone
    let words = Arg::new(alloc, "WORD")
        .required(true)
        .num_args(1..)
        .action(ArgAction::Append);
    let keygen = Grammar::new(alloc, "keygen")
        .arg(words)?
        .arg(flag(alloc, "random"))?
        .arg(flag(alloc, "stdin"))?
        .arg(Arg::new(alloc, "K").long("key"))?;
    grammar.subcommand(with_next_keys(alloc, keygen)?)
}

// Keys behind a committee: its file and the replica, and how many.
fn with_next_keys<'a>(alloc: Global, keygen: Grammar<'a>) -> Result<Grammar<'a>, AllocError> {
    keygen
        .arg(Arg::new(alloc, "BEHIND").long("behind").num_args(2))?
        .arg(Arg::new(alloc, "KEYS").long("keys"))
}

// A word of its own, as `--random`.
fn flag<'a>(alloc: Global, name: &'a str) -> Arg<'a> {
    Arg::new(alloc, name).long(name).action(ArgAction::SetTrue)
}

fn with_committee<'a>(alloc: Global, grammar: Grammar<'a>) -> Result<Grammar<'a>, AllocError> {
    let keys = Arg::new(alloc, "KEY")
        .required(true)
        .num_args(1..)
        .action(ArgAction::Append);
    let committee = Grammar::new(alloc, "committee")
        .arg(Arg::new(alloc, "F").required(true))?
        .arg(Arg::new(alloc, "OUT").required(true))?
        .arg(keys)?;
    grammar.subcommand(committee)
}

fn with_weighted<'a>(alloc: Global, grammar: Grammar<'a>) -> Result<Grammar<'a>, AllocError> {
    let keys = Arg::new(alloc, "KEY")
        .required(true)
        .num_args(1..)
        .action(ArgAction::Append);
    let weighted = Grammar::new(alloc, "weighted")
        .arg(Arg::new(alloc, "OUT").required(true))?
        .arg(keys)?;
    grammar.subcommand(weighted)
}

fn with_replica<'a>(alloc: Global, grammar: Grammar<'a>) -> Result<Grammar<'a>, AllocError> {
    let replica = Grammar::new(alloc, "replica")
        .arg(Arg::new(alloc, "COMMITTEE").required(true))?
        .arg(Arg::new(alloc, "R").required(true))?
        .arg(Arg::new(alloc, "DIR").required(true))?
        .arg(Arg::new(alloc, "W").long("workers"))?
        .arg(Arg::new(alloc, "ADDRESS").long("serve"))?
        .arg(Arg::new(alloc, "N").long("requests"))?;
    grammar.subcommand(replica)
}

fn with_audit<'a>(alloc: Global, grammar: Grammar<'a>) -> Result<Grammar<'a>, AllocError> {
    let sources = Arg::new(alloc, "SOURCE")
        .num_args(0..)
        .action(ArgAction::Append);
    let audit = Grammar::new(alloc, "audit")
        .arg(Arg::new(alloc, "COMMITTEE").required(true))?
        .arg(Arg::new(alloc, "OUTDIR").required(true))?
        .arg(sources)?
        .arg(Arg::new(alloc, "T").long("tries"))?;
    grammar.subcommand(with_wishes(alloc, audit)?)
}

// What else an audit may be asked for.
fn with_wishes<'a>(alloc: Global, audit: Grammar<'a>) -> Result<Grammar<'a>, AllocError> {
    audit
        .arg(flag(alloc, "strict"))?
        .arg(flag(alloc, "strict-all"))?
        .arg(flag(alloc, "why"))?
        .arg(Arg::new(alloc, "KEPT").long("keep"))?
        .arg(Arg::new(alloc, "REPORT").long("json"))?
        .arg(Arg::new(alloc, "N").long("time"))
}

fn with_migrate<'a>(alloc: Global, grammar: Grammar<'a>) -> Result<Grammar<'a>, AllocError> {
    let migrate = Grammar::new(alloc, "migrate")
        .arg(Arg::new(alloc, "OLD").required(true))?
        .arg(Arg::new(alloc, "NEW").required(true))?
        .arg(Arg::new(alloc, "COMMITTEE").required(true))?;
    grammar.subcommand(migrate)
}

fn with_export<'a>(alloc: Global, grammar: Grammar<'a>) -> Result<Grammar<'a>, AllocError> {
    let export = Grammar::new(alloc, "export")
        .arg(Arg::new(alloc, "LOG").required(true))?
        .arg(Arg::new(alloc, "OUT").required(true))?;
    grammar.subcommand(export)
}

fn with_renewal<'a>(alloc: Global, grammar: Grammar<'a>) -> Result<Grammar<'a>, AllocError> {
    let endorsements = Arg::new(alloc, "ENDORSEMENT")
        .required(true)
        .num_args(1..)
        .action(ArgAction::Append);
    let renewal = Grammar::new(alloc, "renewal")
        .arg(Arg::new(alloc, "COMMITTEE").required(true))?
        .arg(Arg::new(alloc, "FILE").required(true))?
        .arg(Arg::new(alloc, "RENEWAL").required(true))?
        .arg(endorsements)?;
    grammar.subcommand(renewal)
}
