ghost use Rattle.std.specs.Prelude.{◌≡◌, ◌+◌, ◌<◌, ◌≤◌, ◌^◌, ◌++◌, [], ◌∷◌, List, ℕ, Option, None};
ghost use Rattle.std.specs.Prelude.{Some};
ghost use Rattle.std.specs.Prelude.{length, take, OnOk};
ghost use Rattle.wire_ids.specs.Causes.{HasCause};
ghost use Rattle.disk_model.specs.Disk.{Only, WhereTold};
ghost use Rattle.disk_journal.specs.Format.{Begins, size_field};
ghost use Rattle.disk_journal.specs.Keeps.{Keeps};

use disk_model::{Disk, Failed};

/// Writes a record behind a gate, a closed gate behind the record, and syncs: four calls.
pub fn stage<D: Disk>(disk: &mut D, end: u64, bytes: &[u8]) -> Result<(), Failed>
    requires fits { end + length bytes.now + 6 ≤ 2 ^ 28 }
    requires within { WhereTold (D.seen disk.old) (λ c. end < length c) }
    // Whatever stands up to the gate stays, at each moment and in each image.
    ensures keeps { WhereTold (D.seen disk.old) (λ c. (front : List ℕ) → length front ≡ end + 1
        → Begins front c → Only (D.images disk.old) c
        → Keeps D.seen D.images D.moment D.images_since (Begins front) disk.old disk.new) }
    ensures staged { OnOk result (WhereTold (D.seen disk.old) (λ c. (front : List ℕ)
        → length front ≡ end + 1 → Begins front c → (d : List ℕ) × (D.seen disk.new ≡ Some d)
        × Begins (front ++ size_field (length bytes.now) ++ bytes.now ++ 0 ∷ []) d
        × Only (D.images disk.new) d)) }
    ensures untold { D.seen disk.old ≡ None → D.seen disk.new ≡ None }
    ensures calls { OnOk result (D.moment disk.new ≡ D.moment disk.old + 4) }
    ensures cause { HasCause (D.faults disk.old) (D.faults disk.new) result }
{
    let field = size_bytes(bytes.len());
    disk.write_at(end + 1, &field)?;
    disk.write_at(end + 5, bytes)?;
    disk.write_at(end + 5 + bytes.len() as u64, &[0])?;
    disk.sync()
}

// A length, the greatest byte first.
fn size_bytes(length: usize) -> [u8; 4]
    requires { length < 2 ^ 32 }
    ensures { result ≡ size_field length }
{
    (length as u32).to_be_bytes()
}
