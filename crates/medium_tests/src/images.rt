//! Banks of the example election and of one with a single home.
#![tactic(auto, unfolding(store_spec::specs::Election::cell_size, store_spec::specs::Election::header_size, store_spec::specs::Election::in_version))]

ghost use Rattle.image_builder.specs.Reading.{IsRefusedBank};
ghost use Rattle.std.specs.Prelude.{◌≡◌, ◌≢◌, ◌<◌, IfErr, IfOk, length};
ghost use Rattle.store_spec.specs.Election.{bank_size, cell_count, example};
ghost use Rattle.store_spec.specs.Image.{IsImageOf};

use ballot_record::{Contest, Election, read_line};
use body_store::Closed;
use image_builder::{ImageFault, ImageReader, PAGE_BYTES, Scratch, image, image_part, read_image};
use std::alloc::Global;
use std::process::Abort;
use std::test::Fail;

const HEADER: [u8; 32] =
    *b"HIBSTORE\x00\x01\x03\x02\x00\x00\x00\x08\0\0\0\0\0\0\0\0\0\0\0\0\0\0\0\0";

const NINE: [u8; 17] = *b"\0\0\0\0\0\0\0\x09\x01\0\0\0\x01\0\0\0\0";

const FOURTEEN: [u8; 17] = *b"\0\0\0\0\0\0\0\x0e\x01\0\0\0\0\0\0\0\x02";

const ONE: [u8; 17] = *b"\0\0\0\0\0\0\0\x01\x01\0\0\0\x02\0\0\0\x05";

fn put(bank: &mut [u8], place: usize, cell: &[u8; 17])
    requires size { length bank.old ≡ bank_size example }
    requires within { place < cell_count example }
{
    let from = 32 + 17 * place;
    bank[from..from + 17].copy_from_slice(cell);
}

/// The bank of the ballots 9, 14 and 1, of which the last stands in this cell.
fn bank(one: usize) -> [u8; 304]
    requires { one < cell_count example }
{
    let mut bank = [0; 304];
    bank[..32].copy_from_slice(&HEADER);
    put(&mut bank, 4, &NINE);
    put(&mut bank, 5, &FOURTEEN);
    put(&mut bank, one, &ONE);
    bank
}

/// The image of a store, whole and a part of it.
fn assert_image(
    rt: &impl Abort,
    alloc: Global,
    store: &Closed,
    bytes: &[u8; 304],
) -> Result<(), Fail>
    requires { store.now.election ≡ example }
{
    let made = image(alloc, store)?;
    assert_eq!(rt; made.as_slice(), bytes.as_slice());
    let mut part = [0; 50];
    image_part(store, 20, &mut part);
    assert_eq!(rt; part.as_slice(), &bytes[20..70]);
    Ok(())
}

/// Three lines, and the number of each.
const LINES: [(&str, u64); 3] = [("9 1 1/-", 9), ("14 1 -/2", 14), ("1 1 2/1,3", 1)];

#[test]
fn three_ballots(rt: HostRuntime) -> Result<(), Fail> {
    let election = Election::example();
    let store = read_image(rt.alloc(), &bank(6), &election)?;
    assert_eq!(rt; store.len(), 3);
    for (line, number) in &LINES {
        let record = read_line(line.as_bytes(), &election).ok();
        assert_eq!(rt; store.record_of(*number), record, "{number}");
    }
    assert_image(&rt, rt.alloc(), &store, &bank(6))
}

#[test]
fn no_ballots(rt: HostRuntime) -> Result<(), Fail> {
    let election = Election::example();
    let mut bytes = [0; 304];
    bytes[..32].copy_from_slice(&HEADER);
    let store = Closed::empty(rt.alloc(), &election)?;
    assert_image(&rt, rt.alloc(), &store, &bytes)?;
    let read = read_image(rt.alloc(), &bytes, &election)?;
    assert_eq!(rt; read.len(), 0);
    Ok(())
}

#[test]
fn scratch_has_room(rt: HostRuntime) -> Result<(), Fail> {
    let scratch = Scratch::new(rt.alloc())?;
    assert_eq!(rt; scratch.found.len(), PAGE_BYTES);
    Ok(())
}

fn assert_damaged(rt: &impl Abort, alloc: Global, bytes: &[u8; 304], cell: u32) {
    let fault = read_image(alloc, bytes, &Election::example()).err();
    assert_eq!(rt; fault, Some(ImageFault::Damaged { cell }));
}

#[test]
fn damage(rt: HostRuntime) {
    let alloc = rt.alloc();
    assert_damaged(&rt, alloc, &bank(7), 7);
    assert_damaged(&rt, alloc, &bank(3), 3);
    assert_damaged(&rt, alloc, &with_cell(7, &NINE), 7);
    assert_damaged(&rt, alloc, &with_byte(40, 1), 0);
}

#[test]
fn another_election(rt: HostRuntime) {
    let mut bytes = bank(6);
    bytes[23] = 1;
    let mut header = HEADER;
    header[23] = 1;
    let fault = read_image(rt.alloc(), &bytes, &Election::example()).err();
    assert_eq!(rt; fault, Some(ImageFault::OtherElection { header }));
}

#[test]
fn more_than_the_limit(rt: HostRuntime) {
    let contests = [
        Contest {
            choices: 4,
            allowed: 1,
        },
        Contest {
            choices: 3,
            allowed: 2,
        },
    ];
    let election = Election::from_parts(1, &contests, &[0b11], 1, 0, 0).expect(&rt, "an election");
    let mut bytes = [0; 66];
    bytes[..32].copy_from_slice(&HEADER);
    bytes[10] = 0;
    bytes[15] = 1;
    bytes[32..49].copy_from_slice(&FOURTEEN);
    let store = read_image(rt.alloc(), &bytes, &election)
        .ok()
        .expect(&rt, "an image");
    assert_eq!(rt; store.len(), 1);
    bytes[49..].copy_from_slice(&NINE);
    let fault = read_image(rt.alloc(), &bytes, &election).err();
    assert_eq!(rt; fault, Some(ImageFault::Damaged { cell: 1 }));
}

/// The store whose image a bank is, read in pieces of so many bytes with an empty one before each. That it is no other
/// and no earlier answer than that of the whole bank takes nothing but what `feed` and `finish` say.
fn read_in_pieces(
    alloc: Global,
    bank: &[u8],
    size: usize,
    election: &Election,
) -> Result<Closed, ImageFault>
    requires long { length bank.now ≡ bank_size election.now }
    requires some { 0 < size }
    ensures image { IfOk result (λ store. IsImageOf election.now bank.now store.ballots) }
    ensures refused { IfErr result
        (λ fault. fault ≢ ImageFault.Memory → IsRefusedBank election.now bank.now fault) }
{
    let mut reader = ImageReader::new(alloc, election)?;
    let mut rest = bank;
    while !rest.is_empty() {
        let (piece, behind) = rest.split_at(size.min(rest.len()));
        reader = reader.feed(&[], election)?;
        reader = reader.feed(piece, election)?;
        rest = behind;
    }
    Ok(reader.finish(alloc, election)?)
}

fn with_byte(place: usize, byte: u8) -> [u8; 304]
    requires { place < 304 }
{
    let mut bank = bank(6);
    bank[place] = byte;
    bank
}

fn with_cell(place: usize, cell: &[u8; 17]) -> [u8; 304]
    requires { place < 16 }
{
    let mut bank = bank(6);
    put(&mut bank, place, cell);
    bank
}

/// The header under version 2.
const OTHER_HEADER: [u8; 32] =
    *b"HIBSTORE\x00\x02\x03\x02\x00\x00\x00\x08\0\0\0\0\0\0\0\0\0\0\0\0\0\0\0\0";

/// What stands from a byte of the bank on, and how many ballots are read from it then.
const CHANGED: [(usize, &[u8], Result<usize, ImageFault>); 8] = [
    (0, b"", Ok(3)),
    (
        9,
        &[2],
        Err(ImageFault::OtherElection {
            header: OTHER_HEADER,
        }),
    ),
    (108, &[2], Err(ImageFault::Damaged { cell: 4 })),
    (112, &[0x10], Err(ImageFault::Damaged { cell: 4 })),
    (100, &[0; 17], Err(ImageFault::Damaged { cell: 6 })),
    (117, &[0; 17], Err(ImageFault::Damaged { cell: 6 })),
    (134, &NINE, Err(ImageFault::Damaged { cell: 6 })),
    (134, &[0; 17], Ok(2)),
];

/// How many ballots are read from a bank, in pieces of each size and whole.
fn assert_read(
    rt: &impl Abort,
    alloc: Global,
    bytes: &[u8; 304],
    wanted: Result<usize, ImageFault>,
) {
    let election = Election::example();
    for size in [1, 7, 17, 4096, 304] {
        let answer = read_in_pieces(alloc, bytes, size, &election);
        assert_eq!(rt; answer.map(|store| store.len()), wanted, "{size} bytes");
    }
    let answer = read_image(alloc, bytes, &election);
    assert_eq!(rt; answer.map(|store| store.len()), wanted);
}

#[test]
fn any_pieces(rt: HostRuntime) {
    for (place, patch, wanted) in &CHANGED {
        let mut bytes = bank(6);
        assert!(rt; *place <= 304 && patch.len() <= 304 - *place);
        bytes[*place..*place + patch.len()].copy_from_slice(*patch);
        assert_read(&rt, rt.alloc(), &bytes, *wanted);
    }
}

/// What the byte behind so many of a bank is refused with.
fn refusal_behind(
    alloc: Global,
    bank: &[u8],
    count: usize,
    election: &Election,
) -> Result<Option<ImageFault>, ImageFault>
    requires long { length bank.now ≡ bank_size election.now }
    requires within { count < length bank.now }
{
    let (front, behind) = bank.split_at(count);
    let reader = ImageReader::new(alloc, election)?;
    let reader = reader.feed(front, election)?;
    Ok(reader.feed(&behind[..1], election).err())
}

#[test]
fn refused_with_its_last_byte(rt: HostRuntime) {
    let election = Election::example();
    let other = refusal_behind(rt.alloc(), &with_byte(9, 2), 31, &election);
    let header = OTHER_HEADER;
    assert_eq!(rt; other, Ok(Some(ImageFault::OtherElection { header })));
    let damaged = refusal_behind(rt.alloc(), &with_byte(108, 2), 116, &election);
    assert_eq!(rt; damaged, Ok(Some(ImageFault::Damaged { cell: 4 })));
}
