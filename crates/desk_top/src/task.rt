//! What is done on a desk that was opened: the lines of the input are answered, or a device is
//! marked.

ghost use Rattle.std.specs.Prelude.{◌≡◌, ◌↔◌, ◌+◌, ◌^◌, ◌<◌, ◌≤◌, List, ℕ, length};
ghost use Rattle.std.specs.Prelude.{Err, None, IfErr, IsErrOf, IfOk, OnOk};
ghost use Rattle.std.specs.Io.KnownBytes.{Consumes};
ghost use Rattle.wire_ids.specs.Causes.{Rose};
ghost use Rattle.book.specs.Results.{MarksSo};
ghost use Rattle.desk_top.specs.LastLines.{marked_line};
ghost use Rattle.desk_top.specs.Tasks.{DeviceMarked, Does, HasRow};
ghost use Rattle.desk_top.specs.declared.fault.Fault.TheVariants as fault;

use crate::answering::answer_lines;
use crate::fault::{Fault, Stop};
use book::{Book, Marked};
use disk_model::{Clock, Sink, Source, write_whole};
use keepers::Keeper;
use key_vault::BlockFn;
use std::alloc::{AllocError, Global};
use wire_ids::{Eui, Moment};

/// What is asked of an opened desk.
#[derive(Clone, Copy)]
pub(crate) enum Task {
    /// Answers the lines of the input.
    Answer,
    /// Suspends a device, the one of this number in the tables, or resumes it.
    Mark {
        suspended: bool,
        device: u32,
        eui: Eui,
    },
}

// What is printed of a device that was to be suspended, or resumed, and maybe was so before.
fn marked_text(
    alloc: Global,
    suspended: bool,
    already: bool,
    eui: Eui,
) -> Result<Vec<u8>, AllocError>
    ensures { IfOk result (λ line. line.items ≡ marked_line suspended already eui) }
{
    let word = match (suspended, already) {
        (true, false) => "suspended ",
        (true, true) => "already suspended ",
        (false, false) => "resumed ",
        (false, true) => "already open ",
    };
    let mut line = word.as_bytes().to_vec(alloc)?;
    line.extend_from_slice(&eui.to_hex())?;
    line.extend_from_slice(b"\n")?;
    Ok(line)
}

// Suspends the device of this number, or resumes it.
fn set_mark<P: Keeper, E: BlockFn, D: BlockFn>(
    alloc: Global,
    suspended: bool,
    device: u32,
    book: &mut Book<P, E, D>,
    now: Moment,
) -> Marked
    requires whole { book.old.page.tried ≡ None }
    requires device { device < length book.old.page.config.devices }
    ensures marks { MarksSo (P.is_full book.old.page.keeper) result suspended device now.0
        book.old book.new }
    ensures later { book.old.page.faults ≤ book.new.page.faults }
    ensures changes { P.changes book.new.page.keeper ≡ P.changes book.old.page.keeper }
{
    if suspended {
        book.suspend(alloc, device, now)
    } else {
        book.resume(alloc, device, now)
    }
}

// Suspends the device of this number, or resumes it, and prints what became of it. The lines are
// made first, so that none is missing behind the mark.
fn mark<P: Keeper, E: BlockFn, D: BlockFn, O: Sink, K: Clock>(
    alloc: Global,
    suspended: bool,
    device: u32,
    eui: Eui,
    book: &mut Book<P, E, D>,
    out: &mut O,
    clock: &mut K,
) -> Result<(), Fault>
    requires whole { book.old.page.tried ≡ None }
    requires device { device < length book.old.page.config.devices }
    ensures marked { DeviceMarked P.fills suspended device eui book.old.page.desk
        (record {
          clock = K.tells clock.old;
          written = O.written out.old;
          records = book.old.page.records;
        })
        (record {
          clock = K.tells clock.new;
          written = O.written out.new;
          records = book.new.page.records;
        })
        book.new.page.tried result }
    ensures write { IsErrOf result Fault.Write → Rose (O.faults out.old) (O.faults out.new) }
    ensures disk { IsErrOf result (Fault.Journal Stop.Failed)
        → Rose book.old.page.faults book.new.page.faults }
    ensures out_count { O.faults out.old ≤ O.faults out.new }
    ensures disk_count { book.old.page.faults ≤ book.new.page.faults }
    ensures changes { P.changes book.new.page.keeper ≡ P.changes book.old.page.keeper }
{
    book.sound();
    let done = marked_text(alloc, suspended, false, eui)?;
    let already = marked_text(alloc, suspended, true, eui)?;
    let now = Moment(clock.now());
    match set_mark(alloc, suspended, device, book, now) {
        Marked::Done => {
            write_whole(out, &done)?;
            Ok(())
        }
        Marked::Already => {
            write_whole(out, &already)?;
            Ok(())
        }
        Marked::Fault => Err(Fault::Journal(Stop::Failed)),
        Marked::Full => Err(Fault::Journal(Stop::Full)),
        Marked::Memory => Err(Fault::Memory),
    }
}

/// Does the task on the desk of a book. The ends of the input's lines are looked for among its
/// first `limit` bytes.
pub(crate) fn serve<P: Keeper, E: BlockFn, D: BlockFn, T: Source, O: Sink, K: Clock>(
    alloc: Global,
    limit: u64,
    task: Task,
    book: &mut Book<P, E, D>,
    input: &mut T,
    out: &mut O,
    clock: &mut K,
) -> Result<(), Fault>
    requires limit { limit < 2 ^ 62 }
    requires whole { book.old.page.tried ≡ None }
    requires row { HasRow book.old.page.config task }
    // What was written and is in the journal, by how it ended.
    ensures does { Does P.fills limit task book.old.page.config book.old.fixed.keys
        book.old.page.desk (T.left input.old) (T.left input.new)
        (record {
          clock = K.tells clock.old;
          written = O.written out.old;
          records = book.old.page.records;
        })
        (record {
          clock = K.tells clock.new;
          written = O.written out.new;
          records = book.new.page.records;
        })
        book.new.page.tried result }
    ensures read { IsErrOf result Fault.InputRead → Rose (T.faults input.old) (T.faults input.new) }
    ensures write { IsErrOf result Fault.Write → Rose (O.faults out.old) (O.faults out.new) }
    ensures disk { IsErrOf result (Fault.Journal Stop.Failed)
        → Rose book.old.page.faults book.new.page.faults }
    // So many bytes were taken, and too many only where it is said.
    ensures too_much { (bytes : List ℕ) × Consumes (T.left input.old) (T.left input.new) bytes
        × ((result ≡ Err fault.TooMuch) ↔ (limit < length bytes)) × (length bytes ≤ limit + 1) }
    ensures input_count { T.faults input.old ≤ T.faults input.new }
    ensures out_count { O.faults out.old ≤ O.faults out.new }
    ensures disk_count { book.old.page.faults ≤ book.new.page.faults }
    ensures changes { P.changes book.new.page.keeper ≡ P.changes book.old.page.keeper }
    ensures faults { P.faults book.old.page.keeper ≡ book.old.page.faults }
{
    book.sound();
    match task {
        Task::Answer => answer_lines(alloc, limit, book, input, out, clock),
        Task::Mark {
            suspended,
            device,
            eui,
        } => mark(alloc, suspended, device, eui, book, out, clock),
    }
}
