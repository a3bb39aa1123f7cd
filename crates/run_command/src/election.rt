//! The reading of the election's text.

ghost use Rattle.std.specs.Prelude.{◌≡◌, ◌++◌, IfOk, IfErr, OnOk, vec_len};
ghost use Rattle.outside_io.specs.Told.{AsTold};
ghost use Rattle.run_command.specs.ElectionText.{IsElectionRead, IsWhole, RefusesElection};
ghost use Rattle.outside_io.specs.Outside.{input};
ghost use Rattle.store_spec.specs.Election.{IsElection};

use ballot_record::Election;
use election_def::{ElectionFault, read_election};
use outside_io::{Memory, Source, read_piece};
use run_outcome::{Status, Which};
use std::alloc::Global;

const ELECTION_BYTES: usize = 1_048_576;

/// How many bytes are asked for at once.
const PIECE: usize = 65536;

fn empty_piece(alloc: Global) -> Result<Vec<u8>, Memory>
    ensures { IfOk result (λ piece. vec_len piece ≡ 65536) }
{
    Ok(vec![in alloc; 0; PIECE]?)
}

fn append(text: &mut Vec<u8>, piece: &[u8]) -> Result<(), Memory>
    ensures { OnOk result (text.new.items ≡ text.old.items ++ piece.now) }
{
    text.extend_from_slice(piece)?;
    Ok(())
}

// Reads a source to its end, or until it has given more bytes than the limit of an election's text.
fn read_text<E: Source>(alloc: Global, source: &mut E) -> Result<Vec<u8>, Status>
    ensures text { IfOk result (λ text. AsTold E.left source.old source.new
        (λ whole left. IsWhole whole left × (text.items ≡ whole))) }
    ensures refused { IfErr result (λ status.
        RefusesElection status (input E.left E.faults source.old) (input E.left E.faults source.new)) }
    ensures no_fault { OnOk result (E.faults source.new ≡ E.faults source.old) }
{
    let mut text = Vec::new(alloc);
    let mut piece = empty_piece(alloc)?;
    'pieces: while text.len() <= ELECTION_BYTES {
        let asked = PIECE.min(ELECTION_BYTES + 1 - text.len());
        let count = match read_piece(source, &mut piece, 0, asked) {
            Ok(count) => count,
            Err(_) => {
                return Err(Status::ReadFault {
                    which: Which::Election,
                });
            }
        };
        if count == 0 {
            return Ok(text);
        }
        append(&mut text, &piece[..count])?;
    }
    Err(Status::TooLong {
        which: Which::Election,
    })
}

/// The election that the whole text of a source describes.
pub fn election_from<E: Source>(alloc: Global, source: &mut E) -> Result<Election, Status>
    ensures election { IfOk result (λ election.
        AsTold E.left source.old source.new (IsElectionRead election)) }
    ensures valid { IfOk result IsElection }
    ensures refused { IfErr result (λ status.
        RefusesElection status (input E.left E.faults source.old) (input E.left E.faults source.new)) }
    ensures no_fault { OnOk result (E.faults source.new ≡ E.faults source.old) }
{
    let text = read_text(alloc, source)?;
    match read_election(alloc, &text) {
        Ok(election) => Ok(election),
        Err(ElectionFault::NotElection) => Err(Status::BadElection),
        Err(ElectionFault::Memory) => Err(Status::Memory),
    }
}
