//! The calls of one connection.

ghost use Rattle.std.specs.Prelude.{◌≡◌, ◌++◌, [], ℕ, List, IsSome, OnOk};
ghost use Rattle.std.specs.Io.KnownBytes.{Appends, Consumes};
ghost use Rattle.http_server.specs.Connection.{config_of, history};
ghost use Rattle.http_server.specs.History.{IsDone, IsServed as IsAllServed};
ghost use Rattle.replica_requests.specs.SessionReceipts.{ReceiptsGrow};
ghost use Rattle.signer_service.specs.CallAnswers.{AreBacked};

use crate::signer::Signer;
use crate::witness::Witness;
use http_server::{Connection, serve};
use signer_answers::{Approver, Keeper};
use signer_votes::Checker;
use stable_log::Disk;
use std::io;
use std::io::{Read, Write};
use std::sync::Wait;
use std::time::Clock;
use vote_desk::DeskNaming;

/// Answers the calls of a new connection, until it is done or a read or a write fails.
pub fn serve_calls<
    'a,
    N: DeskNaming,
    T: Wait + Clock,
    D: Disk,
    V: Checker,
    K: Approver + Keeper,
    S: Witness,
    R: Read,
    W: Write,
>(
    signer: &mut Signer<'a, N, T, D, V, K, S>,
    connection: &mut Connection,
    reader: &mut R,
    writer: &mut W,
) -> io::Result<()>
    requires { (history connection.old).calls ≡ [] }

    // Each call has a reading, and was told what its call is told. The receipt of each vote that was told is in the
    // session: so the vote stands in the log. Who was told once that the log was put back is told of nothing else from then on.
    ensures backed { AreBacked D.Disk N.committee N.replica N.opening
        signer.old.reception.now.rules.now signer.old.reception.now.gate.now.asks
        (K.tells signer.old.office.now.keeper.now) signer.new.caller.session.receipts.items
        signer.old.caller.shown (history connection.new).calls signer.new.caller.shown }
    ensures grows { ReceiptsGrow signer.old.caller.session.receipts.items
        signer.new.caller.session.receipts.items }
    ensures shown { IsSome signer.old.caller.shown → IsSome signer.new.caller.shown }
    ensures same { (signer.new.office ≡ signer.old.office)
        × (signer.new.reception ≡ signer.old.reception) }

    // What went out is the answers to the first requests that came, in order. These came from the reader, and went to the writer.
    ensures served { ∥ IsAllServed (config_of connection.new) (history connection.new) ∥₁ }
    ensures read { (more : List ℕ)
        × Consumes (R.remaining reader.old) (R.remaining reader.new) more
        × ((history connection.new).received ≡ (history connection.old).received ++ more) }
    ensures written { (more : List ℕ)
        × Appends (W.contents writer.old) (W.contents writer.new) more
        × ((history connection.new).sent ≡ (history connection.old).sent ++ more) }
    ensures done { OnOk result (IsDone (history connection.new)) }
{
    serve(connection, signer, reader, writer)
}
