ghost use Rattle.std.specs.Prelude.{◌≡◌, ◌≤◌, [], ◌∷◌, ◌++◌, IfOk, IfErr, OnOk, OnErr, IsErrOf};
ghost use Rattle.std.specs.Io.KnownBytes.{Appends};
ghost use Rattle.wire_ids.specs.Causes.{Rose};
ghost use Rattle.disk_model.specs.Written.{AppendsFront};
ghost use Rattle.desk_top.specs.Ends.{Closes, last_line, line_of_stop, status_of, status_of_stop};
ghost use Rattle.desk_top.specs.Faults.{IsOfPrinting};
ghost use Rattle.desk_top.specs.LastLines.{Prints, bad_entry_line, foreign_line, no_device_line};
ghost use Rattle.desk_top.specs.LastLines.{path_or_dash, refused_line};
ghost use Rattle.desk_top.specs.Runs.{seen};

use crate::fault::{Fault, Stop};
use agreements::TablesFault;
use disk_model::{Sink, write_whole};
use std::alloc::{AllocError, Global};
use wire_ids::Eui;

// The byte that ends a line, LF.
const LINE_END: u8 = 10;

// A line with its end.
fn with_end(mut line: Vec<u8>) -> Result<Vec<u8>, AllocError>
    ensures { IfOk result (λ whole. whole.items ≡ line.items ++ 10 ∷ []) }
{
    line.extend_from_slice(&[LINE_END])?;
    Ok(line)
}

// Writes a line and its end in one piece.
pub(crate) fn write_line<O: Sink>(out: &mut O, line: Vec<u8>) -> Result<(), Fault>
    ensures ok { OnOk result (Appends (O.written out.old) (O.written out.new) (line.items
        ++ 10 ∷ [])) }
    ensures err { OnErr result (AppendsFront (O.written out.old) (O.written out.new) (line.items
        ++ 10 ∷ [])) }
    ensures kind { IfErr result IsOfPrinting }
    ensures write { IsErrOf result Fault.Write → Rose (O.faults out.old) (O.faults out.new) }
    ensures later { O.faults out.old ≤ O.faults out.new }
{
    write_whole(out, &with_end(line)?)?;
    Ok(())
}

// The path, and `-` where there is none.
fn path_or_dash(path: &[u8]) -> &[u8]
    ensures { result.now ≡ path_or_dash path.now }
{
    match path {
        [] => b"-",
        path => path,
    }
}

// What is printed of tables that are refused.
pub(crate) fn refused_text(alloc: Global, fault: &TablesFault) -> Result<Vec<u8>, AllocError>
    ensures { IfOk result (λ line. line.items ≡ refused_line fault.now) }
{
    let number = fault.number();
    let mut line = format!(in alloc; "lwdesk: tables {number} ")?.into_bytes();
    line.extend_from_slice(path_or_dash(fault.path()))?;
    with_end(line)
}

// What is printed where a device has no row.
pub(crate) fn no_device_text(alloc: Global, eui: Eui) -> Result<Vec<u8>, AllocError>
    ensures { IfOk result (λ line. line.items ≡ no_device_line eui) }
{
    let mut line = b"lwdesk: no device ".to_vec(alloc)?;
    line.extend_from_slice(&eui.to_hex())?;
    with_end(line)
}

// What is printed of a disk that differs from a journal at this place.
pub(crate) fn foreign_text(alloc: Global, place: u64) -> Result<Vec<u8>, AllocError>
    ensures { IfOk result (λ line. line.items ≡ foreign_line place) }
{
    let line = format!(in alloc; "lwdesk: not a journal at {place}\n")?;
    Ok(line.into_bytes())
}

// What is printed of a journal whose entry of this number is none, or doesn't fit.
pub(crate) fn bad_entry_text(alloc: Global, number: u64) -> Result<Vec<u8>, AllocError>
    ensures { IfOk result (λ line. line.items ≡ bad_entry_line number) }
{
    let line = format!(in alloc; "lwdesk: bad entry {number}\n")?;
    Ok(line.into_bytes())
}

// The status of a journal that isn't gone on with.
fn status_of_stop(stop: &Stop) -> u8
    ensures { result ≡ status_of_stop stop.now }
{
    match stop {
        Stop::Failed => 6,
        Stop::Full => 7,
        Stop::OtherTables => 8,
        Stop::NotAJournal(_) => 9,
        Stop::BadEntry(_) => 12,
    }
}

// The status of an end.
pub(crate) fn status_of(end: &Result<(), Fault>) -> u8
    ensures { result ≡ status_of end.now }
{
    match end {
        Ok(()) => 0,
        Err(Fault::Usage) => 2,
        Err(Fault::Refused(_)) => 3,
        Err(Fault::TablesRead) => 4,
        Err(Fault::InputRead) => 4,
        Err(Fault::Write) => 5,
        Err(Fault::Journal(stop)) => status_of_stop(stop),
        Err(Fault::Memory) => 10,
        Err(Fault::TooMuch) => 11,
        Err(Fault::NoDevice(_)) => 13,
    }
}

// The last line of a journal that isn't gone on with.
fn line_of_stop(stop: &Stop) -> &[u8]
    ensures { result.now ≡ line_of_stop stop.now }
{
    match stop {
        Stop::Failed => b"lwdesk: disk\n",
        Stop::Full => b"lwdesk: journal full\n",
        Stop::OtherTables => b"lwdesk: other tables\n",
        Stop::NotAJournal(line) => line,
        Stop::BadEntry(line) => line,
    }
}

// Prints the last line of an end, where it has one. Where the sink fails, a front of it stands
// there.
pub(crate) fn close<O: Sink>(out: &mut O, end: &Result<(), Fault>)
    ensures closes { Closes (seen O.written O.faults out.old) (seen O.written O.faults out.new)
        (last_line end.now) }
    ensures later { O.faults out.old ≤ O.faults out.new }
{
    match end {
        Ok(()) => {}
        Err(Fault::Usage) => print(out, b"lwdesk: usage\n"),
        Err(Fault::Refused(line)) => print(out, line),
        Err(Fault::NoDevice(line)) => print(out, line),
        Err(Fault::TablesRead) => print(out, b"lwdesk: read\n"),
        Err(Fault::InputRead) => print(out, b"lwdesk: read\n"),
        Err(Fault::Write) => {}
        Err(Fault::TooMuch) => print(out, b"lwdesk: too much input\n"),
        Err(Fault::Journal(stop)) => print(out, line_of_stop(stop)),
        Err(Fault::Memory) => {}
    }
}

// Prints a line. Where the sink fails, a front of it stands there.
fn print<O: Sink>(out: &mut O, line: &[u8])
    ensures prints { Prints (O.faults out.old) (O.faults out.new) (O.written out.old)
        (O.written out.new) line.now }
    ensures later { O.faults out.old ≤ O.faults out.new }
{
    match write_whole(out, line) {
        Ok(()) => {}
        Err(_) => {}
    }
}
