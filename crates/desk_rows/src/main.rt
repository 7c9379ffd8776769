//! The program `desk_rows`: worked rows and conversations, which stand in case files. Each case is
//! one or more runs of the desk over objects in memory. docs/TESTING.md gives the form of a case
//! file.
#![tactic(auto)]

mod case;
mod draft;
mod folder;
mod form;
mod journal;
mod refusal;
mod running;
mod suite;
#[cfg(test)]
mod tests;
mod texts;
mod verdict;

ghost use Rattle.std.specs.Prelude.{◌≡◌};
ghost use Rattle.desk_rows.specs.Statuses.{status_of};

use std::io;
use std::process::ExitCode;
use suite::run_files;

// 0 where each case went as it is wanted, 1 where one didn't or a file is refused, and 2 where the
// files couldn't be read, nothing more could be printed or memory was wanting.
fn status_of(all: io::Result<bool>) -> u8
    ensures { result ≡ status_of all }
{
    match all {
        Ok(true) => 0,
        Ok(false) => 1,
        Err(_) => 2,
    }
}

fn main(rt: HostRuntime) -> ExitCode {
    ExitCode::from(status_of(run_files(&rt)))
}
