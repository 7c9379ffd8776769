ghost use Rattle.std.specs.Prelude.{◌≡◌, ◌+◌, ◌-◌, ◌<◌, ◌≤◌, ◌^◌, ◌⊎◌, ℕ, List, Some};
ghost use Rattle.std.specs.Prelude.{length, drop, take};
ghost use Rattle.std.specs.Prelude.{slice_get};
ghost use Rattle.std.specs.Prelude.{IfOk, IfErr, OnOk, IsErrOf};
ghost use Rattle.wire_ids.specs.Causes.{HasCause, Rose};
ghost use Rattle.disk_model.specs.Disk.{WhereTold};
ghost use Rattle.disk_journal.specs.Behinds.{HasWhole};
ghost use Rattle.disk_journal.specs.Format.{kept};
ghost use Rattle.disk_journal.specs.Journal.{HasRecords, IsMarked, place};
ghost use Rattle.disk_journal.specs.Keeps.{Quiet};

use crate::JournalFault;
use crate::gate::{Gate, gate_at};
use crate::journal::START;
use disk_model::{Disk, Failed};

/// So many records of a journal, and where the next one stands.
#[derive(Clone, Copy, Debug, PartialEq, Eq)]
pub struct Bookmark {
    pub number: u64,
    pub place: u64,
}

// The bookmark, or where it is behind so many records that of the first.
fn before(bookmark: Bookmark, k: u64) -> Bookmark
    ensures before { result.number ≤ k }
    ensures marked { (records : List (List ℕ)) → IsMarked bookmark.number bookmark.place records
        → IsMarked result.number result.place records }
{
    if bookmark.number <= k {
        bookmark
    } else {
        Bookmark {
            number: 0,
            place: START,
        }
    }
}

// The place so many records behind a place where one stands, or None where a disk shows none.
fn seek<D: Disk>(disk: &mut D, len: u64, start: u64, steps: u64) -> Result<Option<u64>, Failed>
    ensures found { IfOk result (λ r. WhereTold (D.seen disk.old) (λ c. len ≡ length c
        → (end count first : ℕ) (places : List ℕ) → HasRecords end count places c
        → start ≡ place first (kept end c) → first + steps < count
        → r ≡ Some (place (first + steps) (kept end c)))) }
    ensures quiet { Quiet D.seen D.images D.moment D.images_since disk.old disk.new }
    ensures cause { HasCause (D.faults disk.old) (D.faults disk.new) result }
{
    let mut at = start;
    let mut done = 0u64;
    while done < steps {
        match gate_at(disk, at, len)? {
            Gate::Whole { length } => at += 5 + length,
            Gate::Shut => return Ok(None),
            Gate::Cut => return Ok(None),
        }
        done += 1;
    }
    Ok(Some(at))
}

/// Reads the record at a place. Where none is found whole, no bytes are given.
pub fn record_at<D: Disk>(
    disk: &mut D,
    len: u64,
    at: u64,
    out: &mut Vec<u8>,
) -> Result<(), JournalFault>
    ensures found { OnOk result (WhereTold (D.seen disk.old) (λ c. len ≡ length c
        → (body : List ℕ) → HasWhole (length body) (drop at c)
        → take (length body) (drop (at + 5) c) ≡ body → out.new.items ≡ body)) }
    ensures quiet { Quiet D.seen D.images D.moment D.images_since disk.old disk.new }
    ensures faults { IfErr result
        (λ e. (e ≡ JournalFault.DiskFault) ⊎ (e ≡ JournalFault.Memory)) }
    ensures cause { IsErrOf result JournalFault.DiskFault
        → Rose (D.faults disk.old) (D.faults disk.new) }
    ensures later { D.faults disk.old ≤ D.faults disk.new }
{
    out.clear();
    match gate_at(disk, at, len)? {
        Gate::Whole { length } => {
            out.resize(length as usize, 0)?;
            let got = disk.read(at + 5, out.as_mut_slice())?;
            out.truncate(got);
            Ok(())
        }
        Gate::Shut => Ok(()),
        Gate::Cut => Ok(()),
    }
}

/// Reads the k-th record from a bookmark or from the start on, and gives the bookmark behind it.
pub fn read_far<D: Disk>(
    disk: &mut D,
    len: u64,
    bookmark: Bookmark,
    k: u64,
    out: &mut Vec<u8>,
) -> Result<Bookmark, JournalFault>
    requires { k < 2 ^ 64 - 1 }
    ensures found { IfOk result (λ b. WhereTold (D.seen disk.old) (λ c. len ≡ length c
        → (end count : ℕ) (places : List ℕ) → HasRecords end count places c → k < count
        → IsMarked bookmark.number bookmark.place (kept end c)
        → (slice_get (kept end c) k ≡ Some out.new.items)
        × IsMarked b.number b.place (kept end c))) }
    ensures quiet { Quiet D.seen D.images D.moment D.images_since disk.old disk.new }
    ensures faults { IfErr result
        (λ e. (e ≡ JournalFault.DiskFault) ⊎ (e ≡ JournalFault.Memory)) }
    ensures cause { IsErrOf result JournalFault.DiskFault
        → Rose (D.faults disk.old) (D.faults disk.new) }
    ensures later { D.faults disk.old ≤ D.faults disk.new }
{
    let first = before(bookmark, k);
    match seek(disk, len, first.place, k - first.number)? {
        Some(at) => {
            record_at(disk, len, at, out)?;
            Ok(Bookmark {
                number: k + 1,
                place: behind(at, out.as_slice()),
            })
        }
        None => {
            out.clear();
            Ok(bookmark)
        }
    }
}

// The place behind a record that stands at a place.
fn behind(at: u64, body: &[u8]) -> u64
    ensures { at + 5 + length body.now < 2 ^ 64 → result ≡ at + 5 + length body.now }
{
    at.saturating_add(5).saturating_add(body.len() as u64)
}
