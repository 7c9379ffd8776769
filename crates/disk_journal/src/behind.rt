ghost use Rattle.std.specs.Prelude.{◌≡◌, ◌+◌, ◌≤◌, ◌^◌, List, ℕ, length, drop, IfOk, OnOk};
ghost use Rattle.wire_ids.specs.Causes.{HasCause};
ghost use Rattle.disk_model.specs.Disk.{Only, WhereTold};
ghost use Rattle.disk_journal.specs.Behinds.{HasWhole, IsBehind, ReadsBehind};
ghost use Rattle.disk_journal.specs.Format.{records_from};
ghost use Rattle.disk_journal.specs.Keeps.{Quiet};

use crate::compare::stands;
use crate::gate::{Gate, gate_at};
use disk_model::{Disk, Failed};

/// What stands behind an end: nothing that counts, the one record that was tried, or anything else.
#[derive(Clone, Copy, Debug, PartialEq, Eq)]
pub enum Behind {
    Nothing,
    Tried,
    Other,
}

/// Syncs, and says what stands behind the end.
pub fn look_behind<D: Disk>(disk: &mut D, end: u64, tried: &[u8]) -> Result<Behind, Failed>
    requires { end + length tried.now + 6 ≤ 2 ^ 28 }
    ensures behind { IfOk result (λ r. WhereTold (D.seen disk.old) (IsBehind r end tried.now)) }
    ensures synced { OnOk result (WhereTold (D.seen disk.old) (Only (D.images disk.new))) }
    ensures quiet { Quiet D.seen D.images D.moment D.images_since disk.old disk.new }
    ensures cause { HasCause (D.faults disk.old) (D.faults disk.new) result }
{
    disk.sync()?;
    let len = disk.len()?;
    match gate_at(disk, end, len)? {
        Gate::Shut => Ok(Behind::Nothing),
        Gate::Cut => Ok(Behind::Nothing),
        Gate::Whole { length } => look_at_record(disk, end, len, length, tried),
    }
}

// Says what a whole record of this size behind the end is.
fn look_at_record<D: Disk>(
    disk: &mut D,
    end: u64,
    len: u64,
    size: u64,
    tried: &[u8],
) -> Result<Behind, Failed>
    requires { end + length tried.now + 6 ≤ 2 ^ 28 }
    ensures behind { IfOk result (λ r. WhereTold (D.seen disk.old) (λ c. len ≡ length c
        → HasWhole size (drop end c) → ReadsBehind r tried.now (records_from 0 (drop end c)))) }
    ensures quiet { Quiet D.seen D.images D.moment D.images_since disk.old disk.new }
    ensures cause { HasCause (D.faults disk.old) (D.faults disk.new) result }
{
    if size != tried.len() as u64 {
        return Ok(Behind::Other);
    }
    if !stands(disk, end + 5, tried)? {
        return Ok(Behind::Other);
    }
    match gate_at(disk, end + 5 + size, len)? {
        Gate::Whole { .. } => Ok(Behind::Other),
        Gate::Shut => Ok(Behind::Tried),
        Gate::Cut => Ok(Behind::Tried),
    }
}
