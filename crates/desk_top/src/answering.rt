ghost use Rattle.std.specs.Prelude.{◌≡◌, ◌≢◌, ◌↔◌, ◌+◌, ◌^◌, ◌<◌, ◌≤◌, [], List, ℕ, length};
ghost use Rattle.std.specs.Prelude.{Err, None, IfOk, IfErr, OnOk, OnErr, IsErrOf};
ghost use Rattle.std.specs.Bool.{OnFalse};
ghost use Rattle.std.specs.Io.KnownBytes.{Consumes, IsAtEnd, Keeps};
ghost use Rattle.wire_ids.specs.Causes.{Rose};
ghost use Rattle.line_reader.specs.Ahead.{TakesCount, budget, coming};
ghost use Rattle.line_reader.specs.Hearing.{StopsBehind, StopsInLine};
ghost use Rattle.disk_model.specs.Moments.{Told};
ghost use Rattle.entries.specs.declared.entry.Entry as an_entry;
ghost use Rattle.desk_top.specs.Tasks.{LinesAnswered, Unwritten};
ghost use Rattle.desk_top.specs.Turns.{Spends, TurnStops, Turns, WritesFront};
ghost use Rattle.desk_top.specs.Faults.{IsOfLines, StopsLines};
ghost use Rattle.desk_top.specs.declared.fault.Fault.TheVariants as fault;

use crate::fault::{Fault, Stop};
use crate::last_line::write_line;
use book::{Answered, Book};
use disk_model::{Clock, Sink, Source};
use keepers::Keeper;
use key_vault::BlockFn;
use line_reader::{Ahead, Heard, next_line};
use std::alloc::Global;
use wire_ids::Moment;

// Hears a line, reads the clock and answers it, where there is one.
fn turn<P: Keeper, E: BlockFn, D: BlockFn, T: Source, O: Sink, K: Clock>(
    alloc: Global,
    ahead: &mut Ahead,
    book: &mut Book<P, E, D>,
    input: &mut T,
    out: &mut O,
    clock: &mut K,
) -> Result<bool, Fault>
    requires allowed { ahead.old.taken ≤ ahead.old.limit }
    requires whole { book.old.page.tried ≡ None }

    ensures whole { OnOk result (book.new.page.tried ≡ None) }
    ensures config { book.new.page.config ≡ book.old.page.config }
    ensures keys { book.new.fixed ≡ book.old.fixed }
    ensures limit { ahead.new.limit ≡ ahead.old.limit }
    ensures turns { IfOk result
        (λ goes. Turns book.old.page.config book.old.fixed.keys
        (coming ahead.old (T.left input.old)) book.old.page.desk
        (record {
          clock = K.tells clock.old;
          written = O.written out.old;
          records = book.old.page.records;
        }) goes
        (coming ahead.new (T.left input.new)) book.new.page.desk
        (record {
          clock = K.tells clock.new;
          written = O.written out.new;
          records = book.new.page.records;
        })) }
    ensures end { IfOk result (λ goes. OnFalse goes (IsAtEnd (T.left input.new))) }
    ensures front { IfErr result (λ e. (StopsLines e → ⊥) →
        WritesFront book.old.page.config book.old.fixed.keys book.old.page.desk
        (coming ahead.old (T.left input.old))
        (record {
          clock = K.tells clock.old;
          written = O.written out.old;
          records = book.old.page.records;
        })
        (record {
          clock = K.tells clock.new;
          written = O.written out.new;
          records = book.new.page.records;
        }) × (book.new.page.tried ≡ None)) }
    ensures stops { (why : Stop) → IsErrOf result (Fault.Journal why) → (e : an_entry.Entry)
        × TurnStops book.old.page.config book.old.fixed.keys
        (coming ahead.old (T.left input.old)) book.old.page.desk
        (record {
          clock = K.tells clock.old;
          written = O.written out.old;
          records = book.old.page.records;
        })
        (coming ahead.new (T.left input.new))
        (record {
          clock = K.tells clock.new;
          written = O.written out.new;
          records = book.new.page.records;
        }) e
        × Unwritten P.fills e book.new.page.records book.new.page.tried why }
    ensures kind { IfErr result IsOfLines }
    ensures spends { IfOk result (λ goes. Spends goes (budget ahead.old) (budget ahead.new)) }
    ensures taken { TakesCount (T.left input.old) (T.left input.new)
        ahead.old.taken ahead.new.taken }
    ensures within { OnOk result (ahead.new.taken ≤ ahead.new.limit) }
    ensures over { IfErr result (λ e. e ≢ fault.TooMuch → ahead.new.taken ≤ ahead.new.limit) }

    ensures read { IsErrOf result Fault.InputRead → Rose (T.faults input.old) (T.faults input.new) }
    ensures read_in_line { IsErrOf result Fault.InputRead
        → StopsInLine (coming ahead.old (T.left input.old)) (T.left input.new)
        × Told (K.tells clock.old) (K.tells clock.new) []
        × Keeps (O.written out.old) (O.written out.new)
        × (book.new.page.records ≡ book.old.page.records) }
    ensures write { IsErrOf result Fault.Write → Rose (O.faults out.old) (O.faults out.new) }
    ensures disk { IsErrOf result (Fault.Journal Stop.Failed)
        → Rose book.old.page.faults book.new.page.faults }
    ensures too_much { IsErrOf result Fault.TooMuch → ahead.new.taken ≡ ahead.new.limit + 1 }
    ensures stops_behind { IsErrOf result Fault.TooMuch
        → StopsBehind (coming ahead.old (T.left input.old)) (T.left input.new)
        × Told (K.tells clock.old) (K.tells clock.new) []
        × Keeps (O.written out.old) (O.written out.new)
        × (book.new.page.records ≡ book.old.page.records) }
    ensures input_count { T.faults input.old ≤ T.faults input.new }
    ensures out_count { O.faults out.old ≤ O.faults out.new }
    ensures disk_count { book.old.page.faults ≤ book.new.page.faults }
    ensures changes { P.changes book.new.page.keeper ≡ P.changes book.old.page.keeper }
{
    let line = match next_line(alloc, ahead, input)? {
        Heard::Line(line) => line,
        Heard::End => return Ok(false),
    };
    let now = Moment(clock.now());
    match book.answer(alloc, line.as_slice(), now) {
        Answered::Answer { bytes, .. } => {
            write_line(out, bytes.into_vec())?;
            Ok(true)
        }
        Answered::Fault => Err(Fault::Journal(Stop::Failed)),
        Answered::Full => Err(Fault::Journal(Stop::Full)),
        Answered::Memory => Err(Fault::Memory),
    }
}

// Answers the lines of the input to its end. Their ends are looked for among its first `limit`
// bytes.
pub(crate) fn answer_lines<P: Keeper, E: BlockFn, D: BlockFn, T: Source, O: Sink, K: Clock>(
    alloc: Global,
    limit: u64,
    book: &mut Book<P, E, D>,
    input: &mut T,
    out: &mut O,
    clock: &mut K,
) -> Result<(), Fault>
    requires limit { limit < 2 ^ 62 }
    requires whole { book.old.page.tried ≡ None }

    // What was written and is in the journal, by how it ended.
    ensures answered { LinesAnswered P.fills limit book.old.page.config book.old.fixed.keys
        book.old.page.desk (T.left input.old) (T.left input.new)
        (record {
          clock = K.tells clock.old;
          written = O.written out.old;
          records = book.old.page.records;
        })
        (record {
          clock = K.tells clock.new;
          written = O.written out.new;
          records = book.new.page.records;
        })
        book.new.page.tried result }

    ensures read { IsErrOf result Fault.InputRead → Rose (T.faults input.old) (T.faults input.new) }
    ensures write { IsErrOf result Fault.Write → Rose (O.faults out.old) (O.faults out.new) }
    ensures disk { IsErrOf result (Fault.Journal Stop.Failed)
        → Rose book.old.page.faults book.new.page.faults }

    // So many bytes were taken, and too many only where it is said.
    ensures too_much { (bytes : List ℕ) × Consumes (T.left input.old) (T.left input.new) bytes
        × ((result ≡ Err fault.TooMuch) ↔ (limit < length bytes)) × (length bytes ≤ limit + 1) }
    ensures input_count { T.faults input.old ≤ T.faults input.new }
    ensures out_count { O.faults out.old ≤ O.faults out.new }
    ensures disk_count { book.old.page.faults ≤ book.new.page.faults }
    ensures changes { P.changes book.new.page.keeper ≡ P.changes book.old.page.keeper }
{
    let mut ahead = Ahead::with_limit(alloc, limit)?;
    'lines: while turn(alloc, &mut ahead, book, input, out, clock)? {}
    Ok(())
}
