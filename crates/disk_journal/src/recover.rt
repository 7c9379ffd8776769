ghost use Rattle.std.specs.Prelude.{◌≡◌, ◌<◌, ◌≤◌, ◌⊎◌, ℕ, List, Some, None, length, take};
ghost use Rattle.std.specs.Prelude.{IfOk, IfErr, OnOk, IsErrOf};
ghost use Rattle.wire_ids.specs.Causes.{HasCause, Rose};
ghost use Rattle.disk_model.specs.Disk.{LeavesOnly, Only, WhereTold};
ghost use Rattle.disk_journal.specs.Format.{journal_of, kept, mark};
ghost use Rattle.disk_journal.specs.Journal.{AtRest, HasRecords, IsOneOf};
ghost use Rattle.disk_journal.specs.Keeps.{Quiet};
ghost use Rattle.disk_journal.specs.Walked.{EndsAt, IsForeign, IsFresh, IsSettled};
ghost use Rattle.disk_journal.specs.Windows.{Shows};

use crate::JournalFault;
use crate::fresh::{check_mark, make_fresh};
use crate::gate::{Gate, set_gate};
use crate::journal::{KEPT, START};
use crate::window::Window;
use disk_model::{Disk, Failed};

/// Where the records end, how many they are, and whether the gate behind them is open before no
/// whole record.
#[derive(Clone, Copy, Debug, PartialEq, Eq)]
pub struct Walked {
    pub end: u64,
    pub count: u64,
    pub cut: bool,
}

/// Syncs, reads the records, and closes the gate behind them. A disk of at most 17 bytes becomes a
/// fresh journal.
pub fn recover<D: Disk>(
    window: &mut Window,
    disk: &mut D,
    places: &mut [u64],
) -> Result<Walked, JournalFault>
    requires size { length places.old ≡ 2048 }
    requires shows { (c : List ℕ) → Shows window.old c }
    ensures rests { IfOk result (λ w. WhereTold (D.seen disk.new)
        (AtRest w.end w.count places.new (D.images disk.new))) }
    ensures reads { IfOk result (λ w. WhereTold (D.seen disk.old)
        (λ c. (d : List ℕ) × (D.seen disk.new ≡ Some d) × (journal_of c ≡ Some (kept w.end d)))) }
    ensures left { WhereTold (D.seen disk.old) (λ c. IsFresh c → D.seen disk.new ≡ Some c) }
    ensures untold { D.seen disk.old ≡ None → D.seen disk.new ≡ None }
    ensures within { IfOk result (λ w. w.count ≤ w.end) }
    ensures foreign { (place : ℕ) → IsErrOf result (JournalFault.NotAJournal place)
        → WhereTold (D.seen disk.old) (IsForeign place) × (D.seen disk.new ≡ D.seen disk.old) }
    ensures own { OnOk result
        (WhereTold (D.seen disk.old) (λ c. (place : ℕ) → IsForeign place c → ⊥)) }
    ensures faults { IfErr result (λ e. (e ≡ JournalFault.DiskFault)
        ⊎ ((place : ℕ) × (e ≡ JournalFault.NotAJournal place))) }
    ensures cause { IsErrOf result JournalFault.DiskFault
        → Rose (D.faults disk.old) (D.faults disk.new) }
    ensures later { D.faults disk.old ≤ D.faults disk.new }
    // At each moment the journal of each image is that of an image at the start.
    ensures any_moment { WhereTold (D.seen disk.old) (λ c. LeavesOnly D.moment D.images_since
        disk.old disk.new (IsOneOf (D.images disk.old))) }
{
    let len = settle(disk)?;
    if len <= START + 1 {
        make_fresh(disk, len)?;
        return Ok(Walked {
            end: START,
            count: 0,
            cut: false,
        });
    }
    read_records(window, disk, len, places)
}

// Syncs, and says how long the disk is.
fn settle<D: Disk>(disk: &mut D) -> Result<u64, Failed>
    ensures settled { IfOk result
        (λ n. WhereTold (D.seen disk.old) (IsSettled (D.images disk.new) n)) }
    ensures quiet { Quiet D.seen D.images D.moment D.images_since disk.old disk.new }
    ensures cause { HasCause (D.faults disk.old) (D.faults disk.new) result }
{
    disk.sync()?;
    disk.len()
}

// Reads the records of a settled disk of more than 17 bytes, and closes the gate behind them.
fn read_records<D: Disk>(
    window: &mut Window,
    disk: &mut D,
    len: u64,
    places: &mut [u64],
) -> Result<Walked, JournalFault>
    requires settled { WhereTold (D.seen disk.old) (IsSettled (D.images disk.old) len) }
    requires long { 17 < len }
    requires size { length places.old ≡ 2048 }
    requires shows { (c : List ℕ) → Shows window.old c }
    ensures rests { IfOk result (λ w. WhereTold (D.seen disk.new)
        (AtRest w.end w.count places.new (D.images disk.new))) }
    ensures reads { IfOk result (λ w. WhereTold (D.seen disk.old)
        (λ c. (d : List ℕ) × (D.seen disk.new ≡ Some d) × (journal_of c ≡ Some (kept w.end d)))) }
    ensures untold { D.seen disk.old ≡ None → D.seen disk.new ≡ None }
    ensures within { IfOk result (λ w. w.count ≤ w.end) }
    ensures foreign { (place : ℕ) → IsErrOf result (JournalFault.NotAJournal place)
        → WhereTold (D.seen disk.old) (IsForeign place) × (D.seen disk.new ≡ D.seen disk.old) }
    ensures own { OnOk result (WhereTold (D.seen disk.old) (λ c. take 16 c ≡ mark)) }
    ensures faults { IfErr result (λ e. (e ≡ JournalFault.DiskFault)
        ⊎ ((place : ℕ) × (e ≡ JournalFault.NotAJournal place))) }
    ensures cause { IsErrOf result JournalFault.DiskFault
        → Rose (D.faults disk.old) (D.faults disk.new) }
    ensures later { D.faults disk.old ≤ D.faults disk.new }
    ensures any_moment { WhereTold (D.seen disk.old) (λ c. LeavesOnly D.moment D.images_since
        disk.old disk.new (λ x. journal_of x ≡ journal_of c)) }
{
    check_mark(disk)?;
    let walked = walk(window, disk, len, places)?;
    if walked.cut {
        set_gate(disk, walked.end, 0)?;
    }
    Ok(walked)
}

// Goes through the records of a disk that begins as a journal does and has more than 17 bytes.
fn walk<D: Disk>(
    window: &mut Window,
    disk: &mut D,
    len: u64,
    places: &mut [u64],
) -> Result<Walked, Failed>
    requires marked { WhereTold (D.seen disk.old) (λ c. (len ≡ length c) × (take 16 c ≡ mark)) }
    requires long { 17 < len }
    requires size { length places.old ≡ 2048 }
    requires shows { (c : List ℕ) → Shows window.old c }
    ensures found { IfOk result
        (λ w. WhereTold (D.seen disk.old) (HasRecords w.end w.count places.new)) }
    ensures ends { IfOk result (λ w. WhereTold (D.seen disk.old) (EndsAt w.cut w.end)) }
    ensures within { IfOk result (λ w. w.count ≤ w.end) }
    ensures quiet { Quiet D.seen D.images D.moment D.images_since disk.old disk.new }
    ensures cause { HasCause (D.faults disk.old) (D.faults disk.new) result }
{
    let mut end = START;
    let mut count = 0u64;
    'records: loop {
        match window.gate_at(disk, end, len)? {
            Gate::Whole { length } => {
                places[(count % KEPT) as usize] = end;
                end += 5 + length;
                count += 1;
            }
            Gate::Shut => {
                return Ok(Walked {
                    end,
                    count,
                    cut: false,
                });
            }
            Gate::Cut => {
                return Ok(Walked {
                    end,
                    count,
                    cut: true,
                });
            }
        }
    }
}
