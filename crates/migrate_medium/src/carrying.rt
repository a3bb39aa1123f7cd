//! The ballots of a store of version 1 are carried into one of version 2. No ballot changes its cell: homes and limit are
//! the same.

ghost use Rattle.std.specs.Prelude.{◌≡◌, ◌++◌, IfOk, IfSome, OnOk, option_map, replicate};
ghost use Rattle.std.specs.Option.{option_map_or};
ghost use Rattle.ballot_record.specs.Record.{ballot};
ghost use Rattle.store_spec.specs.Ballot.{IsValid};
ghost use Rattle.store_spec.specs.Election.{IsElection, as_version_one, cell_size};
ghost use Rattle.store_spec.specs.Image.{ballot_bytes, image_of};

use ballot_record::{Election, Header, MAX_CELL_BYTES, Record};
use body_store::Closed;
use outside_io::Memory;
use std::alloc::Global;

const ZEROS: [u8; MAX_CELL_BYTES] = [0; MAX_CELL_BYTES];

/// Puts the bytes of an empty cell behind others.
#[tactic(auto, using(ballot_record::proofs::CellFormat::largest_cell_width, std::proofs::lemmas::Grind::common_steps))]
fn push_empty(image: &mut Vec<u8>, election: &Election) -> Result<(), Memory>
    ensures { OnOk result (image.new.items ≡ image.old.items ++ replicate (cell_size election.now) 0) }
{
    image.extend_from_slice(&ZEROS[..election.cell_bytes()])?;
    Ok(())
}

/// Puts the bytes of a ballot's cell behind others.
#[tactic(auto, using(ballot_record::proofs::CellFormat::largest_cell_width, std::proofs::lemmas::Grind::common_steps))]
fn push_ballot(image: &mut Vec<u8>, cast: &Record, election: &Election) -> Result<(), Memory>
    requires { IsValid election.now (ballot cast.now) }
    ensures { OnOk result (image.new.items ≡ image.old.items ++ ballot_bytes election.now (ballot cast.now)) }
{
    let at = image.len();
    push_empty(image, election)?;
    cast.put_cell(election, &mut image[at..]);
    Ok(())
}

/// Puts the bytes of a cell behind others: those of a ballot, or zeros where there is none.
fn push_cell(image: &mut Vec<u8>, held: &Option<Record>, election: &Election) -> Result<(), Memory>
    requires { IfSome held.now (λ cast. IsValid election.now (ballot cast)) }
    ensures { OnOk result (image.new.items ≡ image.old.items
        ++ option_map_or (ballot_bytes election.now) (option_map ballot held.now) (replicate (cell_size election.now) 0)) }
{
    match held {
        Some(cast) => push_ballot(image, cast, election),
        None => push_empty(image, election),
    }
}

/// The image of the election's store with the ballots of a store under the election in version 1.
fn widened(alloc: Global, old: &Closed, election: &Election) -> Result<Vec<u8>, Memory>
    requires { old.now.election ≡ as_version_one election.now }
    ensures image { IfOk result (λ image. image.items ≡ image_of election.now old.now.ballots) }
    ensures election { IsElection election.now }
{
    let header = Header::of(election);
    let mut image = Vec::with_capacity(alloc, election.bank_bytes())?;
    image.extend_from_slice(&header.bytes)?;
    'cells: for cell in 0..old.cells().len() {
        push_cell(&mut image, &old.record_in(cell), election)?;
    }
    Ok(image)
}

/// The store of the election that holds the ballots of a store under the election in version 1.
pub(crate) fn carried(alloc: Global, old: &Closed, election: &Election) -> Result<Closed, Memory>
    requires form { old.now.election ≡ as_version_one election.now }
    ensures same { IfOk result (λ store. store.ballots ≡ old.now.ballots) }
    ensures election { IfOk result (λ store. store.election ≡ election.now) }
{
    let image = widened(alloc, old, election)?;
    let cells = old.cells().to_vec(alloc)?;
    Closed::from_image(alloc, election, image, cells)
}
