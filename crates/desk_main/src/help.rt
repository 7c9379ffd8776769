ghost use Rattle.std.specs.Prelude.{◌≡◌, ◌↔◌, ◌⊎◌, IsTrue};
ghost use Rattle.std.specs.Io.KnownBytes.{Keeps};
ghost use Rattle.wire_ids.specs.Causes.{Rose};
ghost use Rattle.desk_main.specs.Help.{IsHelp};

use crate::WANT_OF_MEMORY;
use clap::{Arg, ArgAction, Command};
use desk_top::has_word;
use disk_model::{Sink, write_whole};
use std::alloc::{AllocError, Global};

// The status of a write that failed.
const WRITE_FAILED: u8 = 5;

const USAGE: &str = "lwdesk check --tables <PATH>\n       \
    lwdesk answer --tables <PATH> --journal <PATH>\n       \
    lwdesk suspend --tables <PATH> --journal <PATH> <DEVEUI>\n       \
    lwdesk resume --tables <PATH> --journal <PATH> <DEVEUI>";

const EXAMPLE: &str = "Example:\n  \
    lwdesk answer --tables sample.toml --journal desk.journal < requests > answers";

/// Whether the words are the single word `--help`.
pub(crate) fn is_help(words: &[String]) -> bool
    ensures { IsTrue result ↔ IsHelp words.now }
{
    words.len() == 1 && has_word(words, 0, "--help")
}

// An option that names a file.
fn file_option(alloc: Global, name: &'static str, text: &'static str) -> Arg<'static> {
    Arg::new(alloc, name)
        .long(name)
        .value_name("PATH")
        .action(ArgAction::Set)
        .help(text)
}

// The text of the help: the commands and options that there are.
fn help_text(alloc: Global) -> Result<String, AllocError> {
    let check = Command::new(alloc, "check").about(
        "Reads the tables and prints how many rows they have",
    );
    let answer = Command::new(alloc, "answer").about(
        "Answers the requests of the standard input, one a line",
    );
    let suspend = Command::new(alloc, "suspend").about(
        "Suspends a device: it makes no new session until it is resumed",
    );
    let resume = Command::new(alloc, "resume").about("Resumes a device that was suspended");
    let tables = file_option(alloc, "tables", "The file of the tables");
    let journal = file_option(alloc, "journal", "The file of the journal");
    let help = Arg::new(alloc, "help")
        .long("help")
        .action(ArgAction::SetTrue)
        .help("Prints this help");
    let mut program = Command::new(alloc, "lwdesk")
        .about("A join server and network server for LoRaWAN 1.1 devices")
        .override_usage(USAGE)
        .after_help(EXAMPLE)
        .disable_help_flag(true)
        .disable_help_subcommand(true)
        .subcommand(check)?
        .subcommand(answer)?
        .subcommand(suspend)?
        .subcommand(resume)?
        .arg(tables)?
        .arg(journal)?
        .arg(help)?;
    program.render_help()
}

/// Prints the help, and gives the status: 0, 5 where a write failed, and 10 for want of memory,
/// where nothing is printed.
pub(crate) fn print_help<O: Sink>(alloc: Global, out: &mut O) -> u8
    ensures status { (result ≡ 0) ⊎ (result ≡ 5) ⊎ (result ≡ 10) }
    ensures write { result ≡ 5 → Rose (O.faults out.old) (O.faults out.new) }
    ensures memory { result ≡ 10 → Keeps (O.written out.old) (O.written out.new) }
{
    match help_text(alloc) {
        Ok(text) => match write_whole(out, text.as_bytes()) {
            Ok(()) => 0,
            Err(_) => WRITE_FAILED,
        },
        Err(_) => WANT_OF_MEMORY,
    }
}
