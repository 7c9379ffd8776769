//! The program `lwdesk`: what `desk_top::run` does, over standard input and output and files.
#![tactic(auto)]

mod adapters;
mod file_disk;
mod help;
#[cfg(test)]
mod tests;

ghost use Rattle.std.specs.Prelude.{◌≡◌, ◌<◌, ◌↔◌, ◌⊎◌};
ghost use Rattle.std.specs.Process.{exit_status};
ghost use Rattle.desk_top.specs.Words.{SpellsNone};
ghost use Rattle.desk_main.specs.Help.{IsHelp};

use adapters::{FileSource, ReadSource, WallClock, WriteSink};
use desk_top::{files_of, run};
use disk_model::{ClosedLink, Ran, Steps};
use file_disk::FileDisk;
use help::{is_help, print_help};
use std::marker::Brand;
use std::process::ExitCode;
use std::rt::Env;
use std::sync::ledger::{Blank, Ledger};
use std::{env, fs, io};

// The status of want of memory.
pub(crate) const WANT_OF_MEMORY: u8 = 10;

// The words behind the program's name.
fn words<R: Env + AllocGlobal>(rt: &R) -> io::Result<Vec<String>> {
    let mut words = Vec::new(rt.alloc());
    for word in env::args(rt)?.skip(1) {
        words.push(word)?;
    }
    Ok(words)
}

// The tables file that the words name, where it can be opened.
fn tables_file(rt: &HostRuntime, words: &[String]) -> Option<fs::File> {
    let place = files_of(words)?.tables?;
    let path = words.get(place)?;
    fs::File::open(rt, path.as_str()).ok()
}

// The disk over the journal's file that the words name, which is made where it is missing.
fn journal_disk(rt: &HostRuntime, words: &[String]) -> FileDisk {
    match journal_path(words) {
        Some(path) => FileDisk::open(rt, path),
        None => FileDisk::new(None),
    }
}

// The path of the journal that the words name.
fn journal_path(words: &[String]) -> Option<&str> {
    let place = files_of(words)?.journal?;
    Some(words.get(place)?.as_str())
}

// Does what the words ask, and hands the status to the system.
fn work<G: Ledger>(rt: &HostRuntime, words: &[String], blank: Blank) -> ExitCode
    requires name { blank.name ≡ G.name }
    requires parts { blank.parts ≡ G.parts }
    requires some { 0 < blank.parts }
    // The help is printed exactly where it is asked for, and else 2 says that the words are no
    // command.
    ensures help { IsHelp words.now → (exit_status result ≡ 0) ⊎ (exit_status result ≡ 5)
        ⊎ (exit_status result ≡ 10) }
    ensures usage { (IsHelp words.now → ⊥) → ((exit_status result ≡ 2) ↔ SpellsNone words.now) }
{
    let mut out = WriteSink::new(io::writer(rt));
    if is_help(words) {
        return ExitCode::from(print_help(rt.alloc(), &mut out));
    }
    let Ran { status, disks: _ } = run(
        rt.alloc(),
        words,
        &mut FileSource::new(tables_file(rt, words)),
        &mut ReadSource::new(rt.reader()),
        &mut out,
        journal_disk(rt, words),
        &mut ClosedLink::new(),
        &mut WallClock::new(rt),
        &mut Steps::<G>::new(blank),
    );
    ExitCode::from(status)
}

// Words that can't be read count as none.
fn main(rt: HostRuntime) -> ExitCode {
    let words = match words(&rt) {
        Ok(words) => words,
        Err(error) if error.kind() == io::ErrorKind::OutOfMemory => {
            return ExitCode::from(WANT_OF_MEMORY);
        }
        Err(_) => Vec::new(rt.alloc()),
    };
    work::<Brand>(&rt, &words, Blank::new(1))
}
