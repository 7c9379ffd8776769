ghost use Rattle.std.specs.Prelude.{◌≡◌, ◌+◌, ◌<◌, ◌≤◌, ◌++◌, ◌∷◌, ℕ, List, Some, None, length};
ghost use Rattle.std.specs.Prelude.{take, drop};
ghost use Rattle.std.specs.Prelude.{min, IfOk, OnOk};
ghost use Rattle.wire_ids.specs.Causes.{HasCause};
ghost use Rattle.disk_model.specs.Disk.{Only, WhereTold};
ghost use Rattle.disk_journal.specs.Gates.{GateIs, EndsBefore};
ghost use Rattle.disk_journal.specs.Journal.{HasGate};
ghost use Rattle.disk_journal.specs.Keeps.{Keeps, Quiet};

use disk_model::{Disk, Failed};

/// How many bytes a gate and the length behind it take.
pub const HEAD: usize = 5;

// The byte of an open gate.
const OPEN: u8 = 1;

/// What stands at a gate.
#[derive(Clone, Copy, Debug, PartialEq, Eq)]
pub enum Gate {
    /// The gate isn't open.
    Shut,
    /// It is open, before no record that lies in the disk together with the next gate.
    Cut,
    /// It is open before a record of this length.
    Whole { length: u64 },
}

/// What stands at this place of a disk of this length.
pub fn gate_at<D: Disk>(disk: &mut D, at: u64, len: u64) -> Result<Gate, Failed>
    ensures found { IfOk result (λ r. WhereTold (D.seen disk.old)
        (λ c. (gate : ℕ) (rest : List ℕ) → len ≡ length c → drop at c ≡ gate ∷ rest
        → GateIs r gate rest)) }
    ensures ends { IfOk result (λ r. EndsBefore r at len) }
    ensures quiet { Quiet D.seen D.images D.moment D.images_since disk.old disk.new }
    ensures cause { HasCause (D.faults disk.old) (D.faults disk.new) result }
{
    let mut head = [0u8; HEAD];
    let count = disk.read(at, &mut head)?;
    Ok(gate_in(&head[..count], len.saturating_sub(at)))
}

/// What the bytes from a gate on say, five of them or all, where so many are left from the gate on.
pub fn gate_in(head: &[u8], left: u64) -> Gate
    ensures found { (bytes rest : List ℕ) (gate : ℕ) → bytes ≡ gate ∷ rest → left ≡ length bytes
        → min 5 (length bytes) ≤ length head.now → head.now ≡ take (length head.now) bytes
        → GateIs result gate rest }
    ensures ends { EndsBefore result 0 left }
{
    if head.is_empty() || head[0] != OPEN {
        return Gate::Shut;
    }
    if head.len() < HEAD {
        return Gate::Cut;
    }
    let length = u32::from_be_bytes([head[1], head[2], head[3], head[4]]) as u64;
    if length + (HEAD as u64) < left {
        Gate::Whole { length }
    } else {
        Gate::Cut
    }
}

/// Writes a gate, and syncs: two calls.
pub fn set_gate<D: Disk>(disk: &mut D, end: u64, gate: u8) -> Result<(), Failed>
    requires within { WhereTold (D.seen disk.old) (λ c. end < length c) }
    ensures keeps { WhereTold (D.seen disk.old) (λ c. (front rest : List ℕ) → length front ≡ end
        → HasGate front rest c → Only (D.images disk.old) c
        → Keeps D.seen D.images D.moment D.images_since (HasGate front rest) disk.old disk.new) }
    ensures set { OnOk result (WhereTold (D.seen disk.old) (λ c. (front rest : List ℕ)
        → length front ≡ end → HasGate front rest c
        → (D.seen disk.new ≡ Some (front ++ gate ∷ rest))
        × Only (D.images disk.new) (front ++ gate ∷ rest))) }
    ensures untold { D.seen disk.old ≡ None → D.seen disk.new ≡ None }
    ensures calls { OnOk result (D.moment disk.new ≡ D.moment disk.old + 2) }
    ensures cause { HasCause (D.faults disk.old) (D.faults disk.new) result }
{
    disk.write_at(end, &[gate])?;
    disk.sync()
}
