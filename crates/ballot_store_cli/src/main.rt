//! `ballot_store MEDIUM ELECTION COMMAND`: a history-independent store for cast ballots.
#![tactic(auto)]

ghost use Rattle.std.specs.Prelude.{◌≡◌, ◌-◌, IfOk, length, vec_len};

mod help;
mod streams;

use file_disk::{FileDisk, FileIdentity, FileLock, LooksAtFiles};
use outside_io::{FileSource, Memory, NoTurns, StdinSource, StdoutSink};
use run_command::{Status, Which, run};
use std::alloc::Global;
use std::io::IsTerminal;
use std::os::unix::fs::FileExt;
use std::process::ExitCode;
use std::rt::Env;
use std::thread::Threads;
use std::{env, io};

/// How large the blocks are, in bytes, that the C library keeps when they are freed.
const KEPT_BLOCK: usize = 2 << 20;

// Each phase takes some megabytes and frees them. The C library gives large blocks back to the system, so that each phase
// would touch its pages anew, until one as large was freed: from then on it keeps blocks up to that size.
fn keep_freed_blocks(alloc: Global) {
    drop(Vec::<u8>::with_capacity(alloc, KEPT_BLOCK));
}

// The words behind the program's name. Words that are no text form no command.
fn words_of(rt: &(impl Env + AllocGlobal)) -> Result<Vec<String>, Status> {
    match env::args(rt) {
        Ok(words) => words
            .skip(1)
            .collect(rt.alloc())
            .map_err(|_| Status::Memory),
        Err(error) if error.kind() == io::ErrorKind::OutOfMemory => Err(Status::Memory),
        Err(_) => Err(Status::Usage),
    }
}

// The file that no disk may be over: the election's own, where there is one.
fn spared_file(rt: &impl LooksAtFiles, election: &str) -> Option<FileIdentity> {
    match rt.look_at(election) {
        Ok(found) => Some(found.identity),
        Err(_) => None,
    }
}

// A disk for each word after the third.
fn further_disks<'a, R: LooksAtFiles + AllocGlobal>(
    rt: &'a R,
    words: &'a [String],
    spared: Option<FileIdentity>,
) -> Result<Vec<FileDisk<'a, R>>, Memory>
    ensures { IfOk result (λ disks. vec_len disks ≡ length words.now - 3) }
{
    let mut disks = Vec::new(rt.alloc());
    'words: for at in 3..words.len().max(3) {
        disks.push(FileDisk::new(rt, &words[at], spared))?;
    }
    Ok(disks)
}

// The election is the file of the second word.
fn status_of<R>(rt: &R) -> Status
where
    R: Threads + Sync + Env + LooksAtFiles + Input + Print + AllocGlobal,
    R::File: FileExt + FileLock,
{
    let words = match words_of(rt) {
        Ok(words) => words,
        Err(status) => return status,
    };
    let medium = words.first().map_or("", |path| path.as_str());
    let election = words.get(1).map_or("", |path| path.as_str());
    let spared = spared_file(rt, election);
    let mut more = match further_disks(rt, &words, spared) {
        Ok(disks) => disks,
        Err(_) => return Status::Memory,
    };
    let (status, _report) = run(
        rt,
        rt.alloc(),
        &words,
        &mut FileSource::new(rt, election),
        &mut StdinSource::new(rt),
        &mut StdoutSink::new(rt),
        &mut FileDisk::new(rt, medium, spared),
        &mut more,
        &NoTurns,
    );
    status
}

fn main(rt: HostRuntime) -> ExitCode {
    keep_freed_blocks(rt.alloc());
    let status = match streams::hold_numbers(&rt) {
        Ok(()) => status_of(&rt),
        Err(_) => Status::ReadFault {
            which: Which::Script,
        },
    };
    if status != Status::Ok {
        let _ = eprintln!(rt; "ballot_store: {status}");
    }
    if status == Status::Usage && rt.stderr().is_terminal() {
        let _ = help::print_forms(&rt.stderr());
    }
    ExitCode::from(status.number())
}
