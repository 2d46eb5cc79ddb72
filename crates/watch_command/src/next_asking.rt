//! What a server gives of the committee that comes next.

use crate::next::{NextFiles, NextRefusal, judge_next};
use crate::patience::Dialer;
use crate::shop::WatchShared;
use handover_steps::MOST_OF_A_RENEWAL;
use log_request::{Fetched, StepPiece, StepRequest, fetch_piece};
use log_transfer::Dial;
use program_parts::MOST_OF_A_SHORT_FILE;
use std::alloc::AllocError;
use std::net::{Net, TcpStream};
use std::sync::Wait;
use std::time::Clock;

/// What a server gives of the committee that comes next.
#[derive(Drop)]
pub(crate) enum Given {
    /// It has none, or gave not all.
    Nothing,
    /// What it gave is not good.
    Wrong,
    Next(NextFiles),
}

// A piece of the step from the chain, of so many bytes at most.
fn ask<T: Wait + Clock, D: Dial>(
    shop: &WatchShared<'_, '_, '_, T>,
    dialer: &D,
    piece: StepPiece,
    most: u64,
) -> Result<Fetched, AllocError> {
    let request = StepRequest {
        chain: shop.committee.chain(),
        piece,
    };
    fetch_piece(shop.alloc, dialer, request, most as usize)
}

/// Asks the server of this name for the committee that follows by a block with this payload: for its file, and then for its renewal.
pub(crate) fn ask_for_next<T: Wait + Clock + Net<Stream = TcpStream>>(
    shop: &WatchShared<'_, '_, '_, T>,
    name: &str,
    payload: &[u8; 32],
) -> Result<Given, AllocError> {
    let dialer = Dialer {
        net: shop.rt,
        alloc: shop.alloc,
        name,
        ending: &shop.ending,
    };
    let Fetched::Piece(file) = ask(shop, &dialer, StepPiece::File, MOST_OF_A_SHORT_FILE)? else {
        return Ok(Given::Nothing);
    };
    let renewal = match ask(shop, &dialer, StepPiece::Renewal, MOST_OF_A_RENEWAL)? {
        Fetched::Piece(renewal) => Some(renewal),
        Fetched::NotThere => None,
        Fetched::Failed => return Ok(Given::Nothing),
    };
    given_by(shop, payload, file, renewal)
}

// What they are.
fn given_by<T: Wait + Clock>(
    shop: &WatchShared<'_, '_, '_, T>,
    payload: &[u8; 32],
    file: Vec<u8>,
    renewal: Option<Vec<u8>>,
) -> Result<Given, AllocError> {
    match NextFiles::judged(shop.alloc, shop.committee, payload, file, renewal) {
        Ok(next) => Ok(Given::Next(next)),
        Err(NextRefusal::Memory) => Err(AllocError),
        Err(NextRefusal::File | NextRefusal::Renewal) => Ok(Given::Wrong),
    }
}
