ghost use Rattle.std.specs.Prelude.{◌≡◌, ◌<◌, ◌≤◌, ◌++◌, List, ℕ, length, Ok, IfOk};
ghost use Rattle.std.specs.Prelude.{IfErr, IsErrOf};
ghost use Rattle.std.specs.Io.KnownBytes.{Consumes, IsAtEnd};
ghost use Rattle.wire_ids.specs.Causes.{Rose};
ghost use Rattle.agreements.specs.Walk.{tables_of};
ghost use Rattle.roam_core.specs.Agreement.{AgreeOver};
ghost use Rattle.desk_top.specs.Faults.{IsOfReading};
ghost use Rattle.desk_top.specs.Opening.{Tells, Unopened};
ghost use Rattle.desk_top.specs.Text.{ReadsText, text_room};
ghost use Rattle.desk_top.specs.declared.fault.Fault.TheVariants as fault;

use crate::fault::Fault;
use crate::last_line::refused_text;
use agreements::{Tables, TablesFault, Unread, read_tables};
use disk_model::Source;
use roam_core::answers_agree;
use std::alloc::Global;
use wire_ids::Text;

/// One byte more than a tables text may have: the byte that shows it to be too long.
const TEXT_ROOM: usize = 4194305;

// How many bytes a read asks for.
const PIECE: usize = 4096;

fn room() -> [u8; PIECE] {
    [0; PIECE]
}

// Reads a piece of at most `most` bytes behind the text, and says how long it is: 0 at the end
// alone.
fn read_piece<S: Source>(
    source: &mut S,
    room: &mut [u8; PIECE],
    most: usize,
    text: &mut Vec<u8>,
) -> Result<usize, Fault>
    requires some { 0 < most }
    ensures piece { (piece : List ℕ) × Consumes (S.left source.old) (S.left source.new) piece
        × (length piece ≤ most)
        × IfOk result (λ n. (text.new.items ≡ text.old.items ++ piece) × (n ≡ length piece)) }
    ensures end { IfOk result (λ n. n ≡ 0 → IsAtEnd (S.left source.new)) }
    ensures kind { IfErr result IsOfReading }
    ensures read { IsErrOf result Fault.TablesRead
        → Rose (S.faults source.old) (S.faults source.new) }
    ensures later { S.faults source.old ≤ S.faults source.new }
{
    let here = most.min(PIECE);
    let Ok(count) = source.read(&mut room[..here]) else {
        return Err(Fault::TablesRead);
    };
    text.extend_from_slice(&room[..count])?;
    Ok(count)
}

// The text of a source, read to its end or to its first `most` bytes.
fn read_text<S: Source>(alloc: Global, most: usize, source: &mut S) -> Result<Vec<u8>, Fault>
    ensures text { IfOk result (λ text. ReadsText most (S.left source.old) text.items) }
    ensures kind { IfErr result IsOfReading }
    ensures taken { (bytes : List ℕ) × Consumes (S.left source.old) (S.left source.new) bytes
        × (length bytes ≤ most) }
    ensures read { IsErrOf result Fault.TablesRead
        → Rose (S.faults source.old) (S.faults source.new) }
    ensures later { S.faults source.old ≤ S.faults source.new }
{
    let mut text = Vec::new(alloc);
    let mut room = room();
    'pieces: while text.len() < most {
        let left = most - text.len();
        let count = read_piece(source, &mut room, left, &mut text)?;
        if count == 0 {
            return Ok(text);
        }
    }
    Ok(text)
}

// Why there are no tables.
fn refused(alloc: Global, refusal: &TablesFault) -> Fault
    ensures { Tells refusal.now result }
{
    match refused_text(alloc, refusal) {
        Ok(line) => Fault::Refused(line),
        Err(_) => Fault::Memory,
    }
}

/// Valid tables, and their text.
#[derive(Drop)]
pub(crate) struct TablesText {
    pub(crate) tables: Tables,
    pub(crate) text: Text,
}

// The tables of a source's text.
pub(crate) fn open_tables<S: Source>(alloc: Global, source: &mut S) -> Result<TablesText, Fault>
    ensures text { IfOk result (λ both. ReadsText text_room (S.left source.old) both.text) }
    ensures tables { IfOk result (λ both. tables_of both.text ≡ Ok both.tables) }
    ensures agree { IfOk result (λ both. AgreeOver both.tables) }
    ensures unopened { IfErr result (Unopened (S.left source.old) (S.faults source.old)
        (S.faults source.new)) }
    ensures taken { (bytes : List ℕ) × Consumes (S.left source.old) (S.left source.new) bytes
        × (length bytes ≤ text_room) }
{
    let text = read_text(alloc, TEXT_ROOM, source)?;
    match read_tables(alloc, &text) {
        Ok(tables) => {
            answers_agree(&tables);
            let text = Text::new(text);
            Ok(TablesText { tables, text })
        }
        Err(Unread::Refused(refusal)) => Err(refused(alloc, &refusal)),
        Err(Unread::Memory) => Err(Fault::Memory),
    }
}
