ghost use Rattle.std.specs.Prelude.{◌≡◌, ◌≢◌, ◌<◌, ◌≤◌, ◌⊎◌, ◌↔◌, ℕ, List, Some, None, length};
ghost use Rattle.std.specs.Prelude.{take, get_or};
ghost use Rattle.std.specs.Prelude.{IfOk, IfErr, OnOk, IsErrOf, IsTrue};
ghost use Rattle.wire_ids.specs.Causes.{HasCause, Rose};
ghost use Rattle.disk_model.specs.Disk.{Only, WhereTold};
ghost use Rattle.disk_journal.specs.Format.{mark};
ghost use Rattle.disk_journal.specs.Keeps.{Keeps, Quiet};
ghost use Rattle.disk_journal.specs.Walked.{IsForeign, IsFresh, IsSettled};

use crate::JournalFault;
use disk_model::{Disk, Failed};

const MARK: [u8; 16] = *b"LWDESK-JOURNAL-1";

const FRESH: [u8; 17] = *b"LWDESK-JOURNAL-1\0";

/// Reads the first 16 bytes of a disk of more than 17, and says whether they are a journal's.
pub fn check_mark<D: Disk>(disk: &mut D) -> Result<(), JournalFault>
    ensures marked { OnOk result
        (WhereTold (D.seen disk.old) (λ c. 17 < length c → take 16 c ≡ mark)) }
    ensures foreign { (place : ℕ) → IsErrOf result (JournalFault.NotAJournal place)
        → WhereTold (D.seen disk.old) (λ c. 17 < length c → IsForeign place c) }
    ensures faults { IfErr result (λ e. (e ≡ JournalFault.DiskFault)
        ⊎ ((place : ℕ) × (e ≡ JournalFault.NotAJournal place))) }
    ensures quiet { Quiet D.seen D.images D.moment D.images_since disk.old disk.new }
    ensures cause { IsErrOf result JournalFault.DiskFault
        → Rose (D.faults disk.old) (D.faults disk.new) }
    ensures later { D.faults disk.old ≤ D.faults disk.new }
{
    let mut head = [0u8; 16];
    let got = disk.read(0, &mut head)?;
    match first_other(&head) {
        None => Ok(()),
        Some(place) => Err(JournalFault::NotAJournal { place }),
    }
}

// The first place that differs from a journal's first 16 bytes.
#[tactic(auto, unfolding(crate::specs::Format::mark))]
fn first_other(head: &[u8]) -> Option<u64>
    requires { length head.now ≡ 16 }
    ensures none { result ≡ None → head.now ≡ mark }
    ensures some { (place : ℕ) → result ≡ Some place → (place < 16)
        × (take place head.now ≡ take place mark)
        × (get_or head.now place 0 ≢ get_or mark place 0) }
{
    for i in 0..16 {
        if head[i] != MARK[i] {
            return Some(i as u64);
        }
    }
    None
}

/// Makes a disk of at most 17 bytes a fresh journal, where it isn't one.
pub fn make_fresh<D: Disk>(disk: &mut D, len: u64) -> Result<(), Failed>
    requires settled { WhereTold (D.seen disk.old) (IsSettled (D.images disk.old) len) }
    requires short { len ≤ 17 }
    ensures keeps { WhereTold (D.seen disk.old) (λ c. Keeps D.seen D.images D.moment D.images_since
        (λ x. length x ≤ 17) disk.old disk.new) }
    ensures fresh { OnOk result (WhereTold (D.seen disk.old) (λ c. (d : List ℕ)
        × (D.seen disk.new ≡ Some d) × IsFresh d × Only (D.images disk.new) d)) }
    ensures left { WhereTold (D.seen disk.old) (λ c. IsFresh c → D.seen disk.new ≡ Some c) }
    ensures untold { D.seen disk.old ≡ None → D.seen disk.new ≡ None }
    ensures cause { HasCause (D.faults disk.old) (D.faults disk.new) result }
{
    let done = holds_fresh(disk, len)?;
    if done {
        return Ok(());
    }
    write_fresh(disk)
}

// Whether a disk of this length, which is at most 17, holds a fresh journal.
fn holds_fresh<D: Disk>(disk: &mut D, len: u64) -> Result<bool, Failed>
    requires settled { WhereTold (D.seen disk.old) (λ c. len ≡ length c) }
    ensures exact { IfOk result (λ r. WhereTold (D.seen disk.old) (λ c. IsTrue r ↔ IsFresh c)) }
    ensures quiet { Quiet D.seen D.images D.moment D.images_since disk.old disk.new }
    ensures cause { HasCause (D.faults disk.old) (D.faults disk.new) result }
{
    if len != 17 {
        return Ok(false);
    }
    let mut head = [0u8; 17];
    let got = disk.read(0, &mut head)?;
    if got != 17 {
        return Ok(false);
    }
    Ok(is_fresh(&head))
}

// Whether these are a journal's first 16 bytes and a gate that isn't open.
fn is_fresh(head: &[u8]) -> bool
    requires { length head.now ≡ 17 }
    ensures { IsTrue result ↔ IsFresh head.now }
{
    match first_other(&head[..16]) {
        None => is_shut(head[16]),
        Some(_) => false,
    }
}

// Whether this is a gate that isn't open.
fn is_shut(gate: u8) -> bool
    ensures { IsTrue result ↔ (gate ≢ 1) }
{
    gate != 1
}

// Writes a fresh journal over a disk of at most 17 bytes.
fn write_fresh<D: Disk>(disk: &mut D) -> Result<(), Failed>
    ensures keeps { WhereTold (D.seen disk.old) (λ c. length c ≤ 17 → Only (D.images disk.old) c
        → Keeps D.seen D.images D.moment D.images_since (λ x. length x ≤ 17) disk.old disk.new) }
    ensures fresh { OnOk result (WhereTold (D.seen disk.old) (λ c. length c ≤ 17 → (d : List ℕ)
        × (D.seen disk.new ≡ Some d) × IsFresh d × Only (D.images disk.new) d)) }
    ensures untold { D.seen disk.old ≡ None → D.seen disk.new ≡ None }
    ensures cause { HasCause (D.faults disk.old) (D.faults disk.new) result }
{
    disk.write_at(0, &FRESH)?;
    disk.sync()
}
