//! The form of a journal, read and written without the desk's own code.

use std::alloc::{AllocError, Global};

/// How a journal without records begins: its text and a closed gate.
const FRESH: &[u8; 17] = b"LWDESK-JOURNAL-1\0";

// The place of the first gate.
const FIRST_GATE: usize = 16;

/// Adds a record to a journal, and makes the journal where there is none yet.
pub(crate) fn add_record(journal: &mut Vec<u8>, record: &[u8]) -> Result<(), AllocError> {
    if journal.is_empty() {
        journal.extend_from_slice(FRESH)?;
    }
    if let Some(gate) = journal.last_mut() {
        *gate = 1;
    }
    let size = u32::try_from(record.len()).unwrap_or(u32::MAX);
    journal.extend_from_slice(&size.to_be_bytes())?;
    journal.extend_from_slice(record)?;
    journal.push(0)?;
    Ok(())
}

/// The entry Tables, made at this moment, with this text.
pub(crate) fn tables_entry(alloc: Global, moment: u64, text: &[u8]) -> Result<Vec<u8>, AllocError> {
    let size = u32::try_from(text.len()).unwrap_or(u32::MAX);
    let mut entry = vec![in alloc; 2u8; 1]?;
    entry.extend_from_slice(&moment.to_be_bytes())?;
    entry.extend_from_slice(&size.to_be_bytes())?;
    entry.extend_from_slice(text)?;
    Ok(entry)
}

// Where the gate behind the record of this gate stands, or None where the gate is the journal's
// last one.
fn next_gate(disk: &[u8], gate: usize) -> Option<usize> {
    if *disk.get(gate)? != 1 {
        return None;
    }
    let mut size = [0; 4];
    let field = disk.get(gate.checked_add(1)?..)?;
    for (byte, found) in size.iter_mut().zip(field.get(..4)?.iter()) {
        *byte = *found;
    }
    let size = usize::try_from(u32::from_be_bytes(size)).ok()?;
    let next = gate.checked_add(5)?.checked_add(size)?;
    if next < disk.len() { Some(next) } else { None }
}

/// The journal that a disk holds, up to its end and with a closed gate there. It is empty where the
/// disk holds something else.
pub(crate) fn journal_in(alloc: Global, disk: &[u8]) -> Result<Vec<u8>, AllocError> {
    if disk.len() <= FRESH.len() {
        return FRESH.to_vec(alloc);
    }
    let mut journal = Vec::new(alloc);
    if !disk.starts_with(b"LWDESK-JOURNAL-1") {
        return Ok(journal);
    }
    let mut end = FIRST_GATE;
    for _ in 0..disk.len() {
        match next_gate(disk, end) {
            Some(next) => end = next,
            None => break,
        }
    }
    journal.extend_from_slice(disk.get(..end).unwrap_or(b""))?;
    journal.push(0)?;
    Ok(journal)
}
