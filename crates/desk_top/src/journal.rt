//! The journal on the disk.

ghost use Rattle.std.specs.Prelude.{◌≡◌, ◌≤◌, IfOk, IfErr, OnErr};
ghost use Rattle.disk_model.specs.Disk.{WhereTold};
ghost use Rattle.disk_journal.specs.Format.{journal_of};
ghost use Rattle.keepers.specs.JournalKeepers.{KeeperRests, keeper_changed, keeper_disk};
ghost use Rattle.keepers.specs.JournalKeepers.{keeper_disk_after, keeper_records};
ghost use Rattle.desk_top.specs.Journals.{AreJournalsOf, IsOwn, LeavesDisk, NotTaken};
ghost use Rattle.desk_top.specs.Journals.{TellsJournal};

use crate::fault::{Fault, Stop};
use crate::last_line::foreign_text;
use disk_journal::JournalFault;
use disk_model::{Disk, Held};
use keepers::JournalKeeper;
use std::alloc::Global;

// Why a disk isn't taken as a journal, with the line that tells it.
fn stop_of(alloc: Global, fault: JournalFault) -> Fault
    ensures { TellsJournal fault result }
{
    match fault {
        JournalFault::DiskFault => Fault::Journal(Stop::Failed),
        JournalFault::NotAJournal { place } => match foreign_text(alloc, place) {
            Ok(line) => Fault::Journal(Stop::NotAJournal(line)),
            Err(_) => Fault::Memory,
        },
        // An opening has no other fault.
        JournalFault::Full | JournalFault::Changed { .. } | JournalFault::Memory => Fault::Memory,
    }
}

/// The keeper of the journal on a disk. A disk of at most 17 bytes is made a fresh journal.
pub(crate) fn take_journal<D: Disk>(
    alloc: Global,
    disk: D,
) -> Result<JournalKeeper<D>, Held<D, Fault>>
    ensures rests { IfOk result (KeeperRests D.seen D.images) }
    ensures reads { IfOk result
        (λ k. WhereTold (D.seen disk) (λ c. keeper_records D.seen k ≡ journal_of c)) }
    ensures changed { IfOk result (λ k. keeper_changed k ≡ 0) }
    ensures fails { IfErr result (λ h. NotTaken (D.seen disk) (D.faults disk) (D.faults h.object)
        h.fault) }
    ensures own { IfOk result (λ k. IsOwn (D.seen disk)) }
    ensures left { IfErr result (λ h. LeavesDisk (D.seen disk) (D.seen h.object)
        (WhereTold (D.seen disk) (λ c. AreJournalsOf (D.images disk) (D.images h.object)))
        h.fault) }
    ensures later { IfOk result (λ k. D.faults disk ≤ D.faults (keeper_disk k)) }
    ensures later_err { IfErr result (λ h. D.faults disk ≤ D.faults h.object) }
{
    match JournalKeeper::open(alloc, disk) {
        Ok(keeper) => Ok(keeper),
        Err(Held { object, fault }) => Err(Held {
            object,
            fault: stop_of(alloc, fault),
        }),
    }
}
