//! Reading a store from the bytes of a bank, at once or piece after piece.

ghost use Rattle.body_store.specs.Contents.{IsStored};
ghost use Rattle.image_builder.specs.Feeding.{IsFront, IsRefusedPiece};
ghost use Rattle.image_builder.specs.Reading.{IsRefusedBank};
ghost use Rattle.std.specs.Prelude.{◌≡◌, ◌≤◌, ◌++◌, List, [], length, take, IfOk, IfErr, MatchResult};
ghost use Rattle.store_spec.specs.Ballot.{Ballot};
ghost use Rattle.store_spec.specs.Election.{bank_size, header_size};
ghost use Rattle.store_spec.specs.Image.{IsImageOf, header_of};

use crate::cells::CellsRead;
use crate::read::{ImageFault, check_header};
use ballot_record::Election;
use body_store::Closed;
use outside_io::Memory;
use std::alloc::Global;
use std::marker::Model;

/// A bank that is read as its bytes come, in pieces of any lengths. It keeps the bytes, and what was judged of them. The
/// election has some thousand bytes, and a reader is moved at each piece, so the election stands beside it.
#[derive(Drop)]
pub struct ImageReader {
    election: Box<Election>,
    image: Vec<u8>,
    cells: CellsRead,
}

impl Model for ImageReader {
    ghost use Rattle.image_builder.specs.Feeding.{Feeding};

    ghost Value = { Feeding };

    ghost use Rattle.image_builder.specs.Kept.{feeding_of, IsKept};

    ghost view = { feeding_of };

    ghost invariant = { IsKept };
}

impl ImageReader {
    /// A reader for a bank of this election, which was fed nothing.
    pub fn new(alloc: Global, election: &Election) -> Result<ImageReader, Memory>
        ensures { IfOk result (λ reader. reader ≡ record { election = election.now; fed = [] }) }
    {
        Ok(ImageReader {
            election: Box::new(alloc, *election)?,
            image: Vec::with_capacity(alloc, election.bank_bytes())?,
            cells: CellsRead::new(alloc, election)?,
        })
    }

    /// Reads the next bytes of the bank. A refusal gives up the reader.
    #[tactic(auto, using(ballot_record::proofs::CellFormat::header_width))]
    pub fn feed(self, bytes: &[u8], election: &Election) -> Result<ImageReader, ImageFault>
        requires own { election.now ≡ self.election }
        requires within { length (self.fed ++ bytes.now) ≤ bank_size election.now }
        ensures fed { IfOk result (λ reader.
            reader ≡ record { election = election.now; fed = self.fed ++ bytes.now }) }
        ensures front { IfOk result (λ _. IsFront election.now (self.fed ++ bytes.now)) }
        ensures refused { IfErr result (IsRefusedPiece election.now self.fed bytes.now) }
    {
        let ImageReader {
            election: own,
            mut image,
            mut cells,
        } = self;
        let fits = image.extend_from_slice(bytes).is_ok();
        prove!(fits);
        cells.judge(&image, election)?;
        Ok(ImageReader {
            election: own,
            image,
            cells,
        })
    }

    /// The store whose image the bank is.
    pub fn finish(self, alloc: Global, election: &Election) -> Result<Closed, Memory>
        requires own { election.now ≡ self.election }
        requires whole { length self.fed ≡ bank_size election.now }
        ensures image { IfOk result (λ store. IsImageOf election.now self.fed store.ballots) }
        ensures election { IfOk result (λ store. store.election ≡ election.now) }
        ensures stored { IfOk result IsStored }
        ensures header { take header_size self.fed ≡ header_of election.now }
    {
        let ImageReader { image, cells, .. } = self;
        cells.into_store(alloc, image, election)
    }
}

/// The store whose image the bytes of a bank are. It is never the empty store where they are the image of none.
pub fn read_image(alloc: Global, bytes: &[u8], election: &Election) -> Result<Closed, ImageFault>
    requires { length bytes.now ≡ bank_size election.now }
    ensures image { IfOk result (λ store. IsImageOf election.now bytes.now store.ballots) }
    ensures refused { IfErr result (IsRefusedBank election.now bytes.now) }
    ensures election { IfOk result (λ store. store.election ≡ election.now) }
    ensures stored { IfOk result IsStored }

    // The image of a set is read as that set and as no other.
    ensures back { (ballots : List Ballot) → IsImageOf election.now bytes.now ballots
        → MatchResult result
        (λ store. store.ballots ≡ ballots) (λ fault. fault ≡ ImageFault.Memory) }
{
    // Another election's bank is told as such even where there is no memory for a reader.
    check_header(bytes, election)?;
    let reader = ImageReader::new(alloc, election)?;
    let reader = reader.feed(bytes, election)?;
    Ok(reader.finish(alloc, election)?)
}
