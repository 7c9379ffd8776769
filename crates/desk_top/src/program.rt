ghost use Rattle.std.specs.Prelude.{◌≡◌, ◌≤◌, List, ℕ, length, Some, None, Ok, IfOk, IfErr};
ghost use Rattle.std.specs.Io.KnownBytes.{Consumes};
ghost use Rattle.wire_ids.specs.declared.eui.Eui.{Eui as Name};
ghost use Rattle.agreements.specs.LookUps.{device_place};
ghost use Rattle.agreements.specs.Walk.{tables_of};
ghost use Rattle.roam_core.specs.Agreement.{AgreeOver};
ghost use Rattle.desk_top.specs.Courses.{AsksMaybe, IsUnready, RunsDesk, TellsNoRow, device_of};
ghost use Rattle.desk_top.specs.Tasks.{HasRow, HasRowMaybe};
ghost use Rattle.desk_top.specs.Text.{ReadsText, text_room};
ghost use Rattle.desk_top.specs.Words.{Spells};
ghost use Rattle.desk_top.specs.declared.words.Command.{Command as Asked};
ghost use Rattle.desk_top.specs.Ends.{Ends};
ghost use Rattle.desk_top.specs.Promises.{Promises};
ghost use Rattle.desk_top.specs.Runs.{seen, seen_clock};

use crate::counts::print_counts;
use crate::desk::run_desk;
use crate::ended::Ended;
use crate::fault::Fault;
use crate::journal::take_journal;
use crate::last_line::{close, no_device_text, status_of};
use crate::opening::{TablesText, open_tables};
use crate::task::Task;
use crate::words::{Command, command_of};
use agreements::Tables;
use disk_model::{Clock, Disk, Held, Link, Ran, Sink, Source, Steps};
use line_reader::INPUT_LIMIT;
use std::alloc::Global;
use std::sync::ledger::Ledger;
use wire_ids::Eui;

// The mark of a device, which has a row, or the fault that says that it has none.
fn mark_of(alloc: Global, tables: &Tables, suspended: bool, eui: Eui) -> Result<Task, Fault>
    ensures row { IfOk result (λ task. (device : ℕ)
        × (device_place eui tables.now.devices ≡ Some device)
        × (task ≡ Task.Mark suspended device eui)) }
    ensures few { IfOk result (HasRow tables.now) }
    ensures none { IfErr result (λ fault. (device_place eui tables.now.devices ≡ None)
        × TellsNoRow eui fault) }
{
    match tables.device(eui) {
        Some((device, _)) => Ok(Task::Mark {
            suspended,
            device,
            eui,
        }),
        None => Err(Fault::NoDevice(no_device_text(alloc, eui)?)),
    }
}

// What is to be done on the desk of these tables, or None where they are only checked.
fn task_of(alloc: Global, tables: &Tables, command: Command) -> Result<Option<Task>, Fault>
    ensures asks { IfOk result (AsksMaybe tables.now command) }
    ensures row { IfOk result (HasRowMaybe tables.now) }
    ensures none { IfErr result (λ fault. (eui : Name) × (device_of command ≡ Some eui)
        × (device_place eui tables.now.devices ≡ None) × TellsNoRow eui fault) }
{
    match command {
        Command::Check => Ok(None),
        Command::Answer => Ok(Some(Task::Answer)),
        Command::Suspend(eui) => Ok(Some(mark_of(alloc, tables, true, eui)?)),
        Command::Resume(eui) => Ok(Some(mark_of(alloc, tables, false, eui)?)),
    }
}

// Opens the desk on the journal of a disk, and does the task.
fn on_disk<T: Source, O: Sink, D: Disk, K: Clock, G: Ledger>(
    alloc: Global,
    task: Task,
    opened: TablesText,
    input: &mut T,
    out: &mut O,
    disk: D,
    clock: &mut K,
    steps: &mut Steps<G>,
) -> Ended<D>
    requires text { tables_of opened.text ≡ Ok opened.tables }
    requires row { HasRow opened.tables task }
    ensures { RunsDesk D.images task opened.tables opened.text (record {
      input = seen T.left T.faults input.old;
      input_after = seen T.left T.faults input.new;
      out = seen O.written O.faults out.old;
      out_after = seen O.written O.faults out.new;
      base = seen D.seen D.faults disk;
      base_after = seen D.seen D.faults result.object;
      clock = seen_clock K.tells clock.old;
      clock_after = seen_clock K.tells clock.new;
      steps = steps.old;
      steps_after = steps.new;
    }) result.end }
{
    let keeper = match take_journal(alloc, disk) {
        Ok(keeper) => keeper,
        Err(Held { object, fault }) => {
            return Ended {
                object,
                end: Err(fault),
            };
        }
    };
    let Ended { object, end } = run_desk(
        alloc,
        INPUT_LIMIT,
        task,
        opened,
        keeper,
        input,
        out,
        clock,
        steps,
    );
    Ended {
        object: object.into_disk(),
        end,
    }
}

// The tables of a source's text, and what is to be done on their desk.
fn prepare<S: Source>(
    alloc: Global,
    words: &[String],
    tables: &mut S,
) -> Result<(TablesText, Option<Task>), Fault>
    ensures text { IfOk result (λ p. ReadsText text_room (S.left tables.old) p.0.text) }
    ensures valid { IfOk result (λ p. tables_of p.0.text ≡ Ok p.0.tables) }
    ensures agree { IfOk result (λ p. AgreeOver p.0.tables) }
    ensures asks { IfOk result (λ p. (command : Asked) × Spells words.now command
        × AsksMaybe p.0.tables command p.1) }
    ensures row { IfOk result (λ p. HasRowMaybe p.0.tables p.1) }
    ensures unready { IfErr result (IsUnready words.now (S.left tables.old)
        (S.faults tables.old) (S.faults tables.new) (tables.new ≡ tables.old)) }
    ensures taken { (bytes : List ℕ) × Consumes (S.left tables.old) (S.left tables.new) bytes
        × (length bytes ≤ text_room) }
{
    let Some(command) = command_of(words) else {
        return Err(Fault::Usage);
    };
    let opened = open_tables(alloc, tables)?;
    let task = task_of(alloc, &opened.tables, command)?;
    Ok((opened, task))
}

// Does what the words ask, and prints no last line.
fn work<S: Source, T: Source, O: Sink, D: Disk, K: Clock, G: Ledger>(
    alloc: Global,
    words: &[String],
    tables: &mut S,
    input: &mut T,
    out: &mut O,
    disk: D,
    clock: &mut K,
    steps: &mut Steps<G>,
) -> Ended<D>
    ensures { Promises D.images (record {
      words = words.now;
      tables = seen S.left S.faults tables.old;
      tables_after = seen S.left S.faults tables.new;
      work = record {
        input = seen T.left T.faults input.old;
        input_after = seen T.left T.faults input.new;
        out = seen O.written O.faults out.old;
        out_after = seen O.written O.faults out.new;
        base = seen D.seen D.faults disk;
        base_after = seen D.seen D.faults result.object;
        clock = seen_clock K.tells clock.old;
        clock_after = seen_clock K.tells clock.new;
        steps = steps.old;
        steps_after = steps.new;
      };
    }) result.end }
{
    match prepare(alloc, words, tables) {
        Ok((opened, asked)) => match asked {
            Some(task) => on_disk(alloc, task, opened, input, out, disk, clock, steps),
            None => Ended {
                object: disk,
                end: print_counts(alloc, &opened.tables, out),
            },
        },
        Err(fault) => Ended {
            object: disk,
            end: Err(fault),
        },
    }
}

/// Does what the words ask: `check --tables PATH`, `answer --tables PATH --journal PATH`, or
/// `suspend` or `resume` with the same two options and a DevEUI behind them.
///
/// `tables` is the text of the tables, `input` the lines to answer, `disk` holds the journal, and
/// `out` takes what is printed. `clock` is read once where the desk is opened, and once for each
/// line, when it was heard, or for the mark. Steps counts the entries that are read at the opening.
/// `link` isn't used yet. The statuses:
///
/// - 0: the tables are valid, and their counts are printed, every line of the input is answered, or
///   the device is marked.
/// - 2: the words are no command. Prints `lwdesk: usage`.
/// - 3: the tables are refused. Prints `lwdesk: tables`, the number of the fault and its path, `-`
///   for a text that is no TOML.
/// - 4: a read of `tables` or `input` failed. Prints `lwdesk: read`.
/// - 5: a write failed. Prints nothing.
/// - 6: a call of the disk failed. Prints `lwdesk: disk`.
/// - 7: the journal has no room for the next entry. Prints `lwdesk: journal full`.
/// - 8: the journal is one of another tables text. Prints `lwdesk: other tables`.
/// - 9: the disk holds no journal. Prints `lwdesk: not a journal at` and the first place where it
///   differs from one.
/// - 10: want of memory. Prints nothing.
/// - 11: more than 2^30 bytes of input were taken. Prints `lwdesk: too much input`.
/// - 12: an entry of the journal is none, or doesn't fit. Prints `lwdesk: bad entry` and its
///   number.
/// - 13: the device that is to be marked has no row. Prints `lwdesk: no device` and its DevEUI.
///
/// The first cause in time decides: the words, the tables, the device, the journal, the entries,
/// the lines. What was written before a fault stays, on the disk too, and a fault of `out` in the
/// last line leaves the status.
pub fn run<S: Source, T: Source, O: Sink, D: Disk, L: Link, K: Clock, G: Ledger>(
    alloc: Global,
    words: &[String],
    tables: &mut S,
    input: &mut T,
    out: &mut O,
    disk: D,
    link: &mut L,
    clock: &mut K,
    steps: &mut Steps<G>,
) -> Ran<D>
    // What is promised of each end, its last line and its status: `Promises` and `Ends`.
    ensures ends { Ends D.images (record {
      words = words.now;
      tables = seen S.left S.faults tables.old;
      tables_after = seen S.left S.faults tables.new;
      work = record {
        input = seen T.left T.faults input.old;
        input_after = seen T.left T.faults input.new;
        out = seen O.written O.faults out.old;
        out_after = seen O.written O.faults out.new;
        base = seen D.seen D.faults disk;
        base_after = seen D.seen D.faults result.disks;
        clock = seen_clock K.tells clock.old;
        clock_after = seen_clock K.tells clock.new;
        steps = steps.old;
        steps_after = steps.new;
      };
    }) result.status }

    // No peer is asked.
    ensures link { link.new ≡ link.old }
{
    let Ended { object, end } = work(alloc, words, tables, input, out, disk, clock, steps);
    close(out, &end);
    Ran {
        status: status_of(&end),
        disks: object,
    }
}
