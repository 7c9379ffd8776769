ghost use Rattle.std.specs.Prelude.{◌↔◌, IfOk, IsTrue, true, false};
ghost use Rattle.desk_rows.specs.Verdicts.{Holds, Passes, PassAll, Says};

use crate::case::{Ended, Outcome, Wanted};
use std::alloc::{AllocError, Global};

// Whether these bytes are there, or nothing is said of them.
fn holds(got: &[u8], wanted: &Option<Vec<u8>>) -> bool
    ensures { IsTrue result ↔ Holds got.now wanted.now }
{
    match wanted {
        Some(wanted) => got == wanted.as_slice(),
        None => true,
    }
}

/// Whether a run ended as it is wanted.
pub(crate) fn passes(ended: &Ended) -> bool
    ensures { IsTrue result ↔ Passes ended.now.got ended.now.wanted }
{
    let Ended { got, wanted } = ended;
    got.status == wanted.status
        && got.output.as_slice() == wanted.output.as_slice()
        && holds(&got.disk, &wanted.disk)
        && holds(&got.journal, &wanted.journal)
}

/// Whether each run ended as it is wanted.
pub(crate) fn pass_all(ended: &[Ended]) -> bool
    ensures { IsTrue result ↔ PassAll ended.now }
{
    ended.iter().all(|ended| passes(ended))
}

// The number of the first line in which two texts differ, from 0.
fn first_difference(one: &[u8], other: &[u8]) -> usize {
    let pairs = one.iter().zip(other.iter());
    pairs
        .take_while(|(a, b)| a == b)
        .filter(|(a, _)| **a == b'\n')
        .count()
}

// The line of this number, without its end.
fn line_at(text: &[u8], at: usize) -> &[u8] {
    text.split(|byte| *byte == b'\n').nth(at).unwrap_or(b"")
}

// The bytes of the disk or of the journal that are there, and those that are wanted.
fn bytes_differ(
    alloc: Global,
    name: &str,
    got: &[u8],
    wanted: &Option<Vec<u8>>,
    text: &mut Vec<u8>,
) -> Result<(), AllocError> {
    if holds(got, wanted) {
        return Ok(());
    }
    let got = hex::encode(alloc, got)?;
    let wanted = hex::encode(alloc, wanted.as_deref().unwrap_or(b""))?;
    let both = format!(in alloc; "  {name}: {got}\n  wanted: {wanted}\n")?;
    text.extend_from_slice(both.as_bytes())
}

// The statuses where they differ, the first line in which the outputs do, and the disk's bytes.
fn differences(alloc: Global, got: &Outcome, wanted: &Wanted) -> Result<Vec<u8>, AllocError> {
    let mut text = Vec::new(alloc);
    if got.status != wanted.status {
        let statuses = format!(in alloc; "  status {}, wanted {}\n", got.status, wanted.status)?;
        text.extend_from_slice(statuses.as_bytes())?;
    }
    if got.output.as_slice() != wanted.output.as_slice() {
        let at = first_difference(&got.output, &wanted.output);
        let number = at.saturating_add(1);
        text.extend_from_slice(format!(in alloc; "  line {number}: ")?.as_bytes())?;
        text.extend_from_slice(line_at(&got.output, at))?;
        text.extend_from_slice(b"\n  wanted: ")?;
        text.extend_from_slice(line_at(&wanted.output, at))?;
        text.extend_from_slice(b"\n")?;
    }
    bytes_differ(alloc, "disk", &got.disk, &wanted.disk, &mut text)?;
    bytes_differ(alloc, "journal", &got.journal, &wanted.journal, &mut text)?;
    Ok(text)
}

// How each run that didn't end as it is wanted differs. Behind the first one the run's number
// stands before it.
fn all_differences(alloc: Global, ended: &[Ended]) -> Result<Vec<u8>, AllocError> {
    let mut text = Vec::new(alloc);
    for (number, ended) in ended.iter().enumerate() {
        if number > 0 && !passes(ended) {
            let run = number.saturating_add(1);
            text.extend_from_slice(format!(in alloc; "  run {run}:\n")?.as_bytes())?;
        }
        text.extend_from_slice(&differences(alloc, &ended.got, &ended.wanted)?)?;
    }
    Ok(text)
}

/// What is printed of a case: its name, and that it passed, or how its runs differ from what is
/// wanted.
pub(crate) fn verdict(alloc: Global, name: &str, ended: &[Ended]) -> Result<Vec<u8>, AllocError>
    ensures passes { PassAll ended.now → IfOk result (λ text. Says true name.now text.items) }
    ensures differs { (PassAll ended.now → ⊥)
        → IfOk result (λ text. Says false name.now text.items) }
{
    if pass_all(ended) {
        return Ok(format!(in alloc; "{name}: ok\n")?.into_bytes());
    }
    let mut text = format!(in alloc; "{name}: differs\n")?.into_bytes();
    text.extend_from_slice(&all_differences(alloc, ended)?)?;
    Ok(text)
}
