ghost use Rattle.std.specs.Prelude.{◌≡◌, ◌≤◌, ℕ, List, Some, length, IfOk, IfErr, vec_len};
ghost use Rattle.std.specs.Prelude.{option_map};
ghost use Rattle.wire_ids.specs.Causes.{Rose};
ghost use Rattle.disk_model.specs.Disk.{LeavesOnly, WhereTold};
ghost use Rattle.disk_journal.specs.Format.{journal_of};
ghost use Rattle.disk_journal.specs.Journal.{IsOneOf};
ghost use Rattle.disk_journal.specs.Walked.{IsForeign, IsFresh};
ghost use Rattle.disk_journal.specs.Windows.{Shows};

use crate::journal::{KEPT, START};
use crate::read::Bookmark;
use crate::recover::recover;
use crate::window::Window;
use crate::{Journal, JournalFault};
use disk_model::{Disk, Held};
use std::alloc::{AllocError, Global};

impl<D: Disk> Journal<D> {
    ghost use Rattle.disk_journal.specs.Journals.{disk_after, journal_count, journal_disk};
    ghost use Rattle.disk_journal.specs.Journals.{IsOpeningFault, records_of, Rests};

    /// Syncs the disk, and reads the journal that it holds. A disk of at most 17 bytes that isn't a
    /// fresh journal is made one; on a longer one the gate behind the records is closed where it
    /// stands open. Takes all memory before its first call of the disk.
    pub fn open(alloc: Global, disk: D) -> Result<Journal<D>, Held<D, JournalFault>>
        ensures rests { IfOk result (Rests D.seen D.images) }
        ensures reads { IfOk result
            (λ j. WhereTold (D.seen disk) (λ c. records_of D.seen j ≡ journal_of c)) }
        ensures count { IfOk result (λ j. WhereTold (D.seen disk)
            (λ c. Some (journal_count j) ≡ option_map length (journal_of c))) }
        ensures after { IfOk result (λ j. WhereTold (D.seen disk)
            (λ c. (x : List ℕ) → D.images (journal_disk j) x → journal_of x ≡ journal_of c)) }
        // More than 17 bytes that begin otherwise are no journal, and nothing else isn't.
        ensures own { IfOk result
            (λ j. WhereTold (D.seen disk) (λ c. (place : ℕ) → IsForeign place c → ⊥)) }
        ensures foreign { IfErr result
            (λ h. (place : ℕ) → h.fault ≡ JournalFault.NotAJournal place
            → WhereTold (D.seen disk) (IsForeign place) × (D.seen h.object ≡ D.seen disk)) }
        // A fresh journal is left as it is.
        ensures left { WhereTold (D.seen disk)
            (λ c. IsFresh c → D.seen (disk_after result) ≡ Some c) }
        ensures memory { IfErr result (λ h. h.fault ≡ JournalFault.Memory → h.object ≡ disk) }
        ensures faults { IfErr result (λ h. IsOpeningFault h.fault) }
        ensures cause { IfErr result
            (λ h. h.fault ≡ JournalFault.DiskFault → Rose (D.faults disk) (D.faults h.object)) }
        ensures later { D.faults disk ≤ D.faults (disk_after result) }
        // At each moment the journal of each image is that of an image at the start.
        ensures any_moment { WhereTold (D.seen disk) (λ c. LeavesOnly D.moment D.images_since
            disk (disk_after result) (IsOneOf (D.images disk))) }
    {
        let mut disk = disk;
        let Ok((mut places, mut window)) = rooms(alloc) else {
            return Err(Held {
                object: disk,
                fault: JournalFault::Memory,
            });
        };
        match recover(&mut window, &mut disk, places.as_mut_slice()) {
            Ok(found) => Ok(Journal {
                disk,
                end: found.end,
                count: found.count,
                places,
                bookmark: Bookmark {
                    number: 0,
                    place: START,
                },
            }),
            Err(fault) => Err(Held {
                object: disk,
                fault,
            }),
        }
    }
}

// The list of places, and a window.
fn rooms(alloc: Global) -> Result<(Vec<u64>, Window), AllocError>
    ensures places { IfOk result (λ r. vec_len r.0 ≡ 2048) }
    ensures shows { IfOk result (λ r. (c : List ℕ) → Shows r.1 c) }
{
    Ok((vec![in alloc; 0u64; KEPT as usize]?, Window::new(alloc)?))
}
