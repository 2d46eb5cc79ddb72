//! What the watch knows, published whole.

use crate::program::WatchHost;
use crate::rounds::Rounds;
use crate::serving::Server;
use crate::shop::{SourceOrigin, Target, WatchShared};
use crate::since::Since;
use crate::words::Words;
use base_shared::Shared;
use blocks::CommitteeView;
use std::alloc::{AllocError, Global};
use std::fs::{File, Files};
use std::sync::Wait;
use std::sync::atomic::Ordering;
use std::time::Clock;
use watch_desk::{KeptVerdicts, Moment, SourcePlace, SourceTimes, snapshot_of};
use watch_report::Snapshot;
use watch_state::StateFolder;
use watch_web::seconds_now;

/// What a watch of this name knows before anything came.
pub(crate) fn first_snapshot<T: Files<File = File> + Clock>(
    host: &WatchHost<'_, T>,
    committee: &CommitteeView,
    number: u64,
    words: &Words,
    targets: &[Target],
    state: Option<&StateFolder<'_, '_, T>>,
    name: String,
) -> Result<Snapshot, AllocError> {
    let alloc = host.alloc;
    let now = seconds_now(host.rt);
    let desk = KeptVerdicts::new(alloc, committee).open(&replicas_of(alloc, targets)?)?;
    let since = Since::new(alloc, targets.len())?;
    let moment = Moment {
        committee: number,
        goes_over: words.lineage,
        earlier_culprits: 0,
        name,
        folder: String::from_str(alloc, words.folder)?,
        started: now,
        round: 0,
        stamped: now,
        took: 0,
        every: words.every,
        is_unstored: false,
        unstored_since: 0,
        conflict_since: 0,
        lines_lost: 0,
        kept: parts_in(state),
        kept_read: 0,
        state_bytes: bytes_in(state),
        state_bytes_max: bytes_max(words),
        sources: source_places(alloc, targets, &since)?,
        picture: None,
    };
    snapshot_of(alloc, &desk, &[], moment)
}

/// The replicas whose logs the sources are said to be.
pub(crate) fn replicas_of(alloc: Global, targets: &[Target]) -> Result<Vec<u16>, AllocError> {
    let mut replicas = Vec::new(alloc);
    for target in targets {
        replicas.push(target.replica)?;
    }
    Ok(replicas)
}

fn source_places(
    alloc: Global,
    targets: &[Target],
    since: &Since,
) -> Result<Vec<SourcePlace>, AllocError> {
    let mut places = Vec::new(alloc);
    for (target, holds) in targets.iter().zip(since.sources.iter()) {
        places.push(SourcePlace {
            word: String::from_str(alloc, target.word)?,
            is_file: match &target.place {
                SourceOrigin::File(_) => true,
                SourceOrigin::Server(_) => false,
            },
            times: SourceTimes {
                answer: target.answered.load(Ordering::SeqCst),
                frame: target.framed.load(Ordering::SeqCst),
                status: holds.status,
                bad: holds.bad,
                aside: holds.aside,
                beyond: holds.beyond,
                stays: target.stays.load(Ordering::SeqCst),
            },
        })?;
    }
    Ok(places)
}

// How many of the kept files were read; all of them once all that is read of them was added. Those of sources that are not named
// are not read.
fn kept_read<T: Wait + Clock>(shop: &WatchShared<'_, '_, '_, T>, kept: u64) -> u64 {
    if shop.reads_kept() {
        return shop.kept_read().min(kept.saturating_sub(1));
    }
    kept
}

// How many parts are kept.
fn parts_in<T: Files<File = File>>(state: Option<&StateFolder<'_, '_, T>>) -> u64 {
    match state {
        Some(state) => state.parts().len() as u64,
        None => 0,
    }
}

// How many bytes are kept.
fn bytes_in<T: Files<File = File>>(state: Option<&StateFolder<'_, '_, T>>) -> u64 {
    match state {
        Some(state) => state.held(),
        None => 0,
    }
}

// How many may be, 0 where there is no bound.
fn bytes_max(words: &Words) -> u64 {
    match words.state {
        Some(_) if words.keep_most < u64::MAX => words.keep_most,
        _ => 0,
    }
}

fn moment_of<T: Files<File = File> + Wait + Clock>(
    shop: &WatchShared<'_, '_, '_, T>,
    server: &Server,
    rounds: &Rounds,
) -> Result<Moment, AllocError> {
    let picture = match &rounds.picture {
        Some(picture) => Some(String::from_str(shop.alloc, picture)?),
        None => None,
    };
    Ok(Moment {
        committee: shop.number,
        goes_over: shop.words.lineage,
        earlier_culprits: shop.earlier_culprits,
        name: String::from_str(shop.alloc, &server.name)?,
        folder: String::from_str(shop.alloc, shop.words.folder)?,
        started: server.started,
        round: rounds.round,
        stamped: seconds_now(shop.rt),
        took: rounds.took / 1_000,
        every: shop.words.every,
        is_unstored: rounds.is_unstored(),
        unstored_since: rounds.since.unstored,
        conflict_since: rounds.since.conflict,
        lines_lost: shop.queue.lost(),
        kept: parts_in(shop.state),
        kept_read: kept_read(shop, parts_in(shop.state)),
        state_bytes: bytes_in(shop.state),
        state_bytes_max: bytes_max(shop.words),
        sources: source_places(shop.alloc, shop.targets, &rounds.since)?,
        picture,
    })
}

/// Publishes what is known after a round, where it is told.
pub(crate) fn publish<T: Files<File = File> + Wait + Clock>(
    shop: &WatchShared<'_, '_, '_, T>,
    rounds: &Rounds,
) -> Result<(), AllocError> {
    let Some(server) = shop.server else {
        return Ok(());
    };
    let moment = moment_of(shop, server, rounds)?;
    let seen = snapshot_of(shop.alloc, &rounds.desk, &rounds.places, moment)?;
    server.publish(shop.rt, Shared::new(shop.alloc, seen)?);
    Ok(())
}
