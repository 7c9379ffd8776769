ghost use Rattle.std.specs.Prelude.{◌≡◌, ◌+◌, ◌-◌, ◌≤◌, ◌∷◌, ℕ, List, length, drop, min, IfOk};
ghost use Rattle.std.specs.Prelude.{OnOk};
ghost use Rattle.std.specs.Prelude.{IsTrue};
ghost use Rattle.wire_ids.specs.Causes.{HasCause};
ghost use Rattle.disk_model.specs.Disk.{WhereTold};
ghost use Rattle.disk_journal.specs.Gates.{EndsBefore, GateIs};
ghost use Rattle.disk_journal.specs.Keeps.{Quiet};

use crate::gate::{Gate, HEAD, gate_in};
use disk_model::{Disk, Failed};
use std::alloc::{AllocError, Global};

// How many bytes are read at once.
const PIECE: usize = 1 << 16;

/// A piece of a disk, from one place on, that was read ahead.
#[derive(Drop)]
pub struct Window {
    room: Vec<u8>,
    at: u64,
    used: usize,
    ghost within: { used ≤ length room.items },
    ghost size: { 5 ≤ length room.items },
}

impl Window {
    ghost use Rattle.disk_journal.specs.Windows.{HasHead, shown_from, Shows};

    /// A window that shows nothing yet.
    pub fn new(alloc: Global) -> Result<Window, AllocError>
        ensures shows { IfOk result (λ w. (c : List ℕ) → Shows w c) }
    {
        Ok(Window {
            room: vec![in alloc; 0; PIECE]?,
            at: 0,
            used: 0,
        })
    }

    /// What stands at a gate of a disk of this length. The disk is read where the window doesn't
    /// show it.
    pub fn gate_at<D: Disk>(&mut self, disk: &mut D, at: u64, len: u64) -> Result<Gate, Failed>
        requires shows { WhereTold (D.seen disk.old) (Shows self.old) }
        ensures shows { OnOk result (WhereTold (D.seen disk.old) (Shows self.new)) }
        ensures found { IfOk result (λ r. WhereTold (D.seen disk.old)
            (λ c. (gate : ℕ) (rest : List ℕ) → len ≡ length c → drop at c ≡ gate ∷ rest
            → GateIs r gate rest)) }
        ensures ends { IfOk result (λ r. EndsBefore r at len) }
        ensures quiet { Quiet D.seen D.images D.moment D.images_since disk.old disk.new }
        ensures cause { HasCause (D.faults disk.old) (D.faults disk.new) result }
    {
        self.show(disk, at)?;
        Ok(gate_in(self.from(at), len.saturating_sub(at)))
    }

    // Reads the disk where the window doesn't show five bytes from this place on.
    fn show<D: Disk>(&mut self, disk: &mut D, at: u64) -> Result<(), Failed>
        requires shows { WhereTold (D.seen disk.old) (Shows self.old) }
        ensures shows { OnOk result (WhereTold (D.seen disk.old) (Shows self.new)) }
        ensures from { OnOk result (self.new.at ≤ at) }
        ensures to { OnOk result (at ≤ self.new.at + self.new.used) }
        ensures whole { OnOk result (WhereTold (D.seen disk.old)
            (λ c. min 5 (length c - at) ≤ self.new.at + self.new.used - at)) }
        ensures quiet { Quiet D.seen D.images D.moment D.images_since disk.old disk.new }
        ensures cause { HasCause (D.faults disk.old) (D.faults disk.new) result }
    {
        if self.has_head(at) {
            return Ok(());
        }
        self.fill(disk, at)
    }

    // Whether it shows five bytes from this place on.
    fn has_head(&self, at: u64) -> bool
        ensures { IsTrue result → HasHead self.now at }
    {
        self.at <= at && (self.used as u64).saturating_sub(at - self.at) >= HEAD as u64
    }

    // The bytes that it shows from this place on.
    fn from(&self, at: u64) -> &[u8]
        requires from { self.now.at ≤ at }
        requires to { at ≤ self.now.at + self.now.used }
        ensures { result.now ≡ shown_from self.now at }
    {
        &self.room[(at - self.at) as usize..self.used]
    }

    // Reads the disk from this place on.
    fn fill<D: Disk>(&mut self, disk: &mut D, at: u64) -> Result<(), Failed>
        ensures shows { OnOk result (WhereTold (D.seen disk.old) (Shows self.new)) }
        ensures place { OnOk result (self.new.at ≡ at) }
        ensures whole { OnOk result (WhereTold (D.seen disk.old)
            (λ c. min 5 (length c - at) ≤ self.new.used)) }
        ensures quiet { Quiet D.seen D.images D.moment D.images_since disk.old disk.new }
        ensures cause { HasCause (D.faults disk.old) (D.faults disk.new) result }
    {
        self.used = 0;
        self.used = disk.read(at, self.room.as_mut_slice())?;
        self.at = at;
        Ok(())
    }
}
