ghost use Rattle.std.specs.Prelude.{◌≡◌, ◌+◌, ◌<◌, ◌≤◌, ◌↔◌, ◌^◌, ℕ, List, length, take, drop, min};
ghost use Rattle.std.specs.Prelude.{IfOk, IsTrue};
ghost use Rattle.wire_ids.specs.Causes.{HasCause};
ghost use Rattle.disk_model.specs.Disk.{WhereTold};
ghost use Rattle.disk_journal.specs.Keeps.{Quiet};

use disk_model::{Disk, Failed};

// How many bytes are compared at once.
const PIECE: usize = 256;

/// Whether these bytes stand at this place of the disk. It is read piece by piece.
pub fn stands<D: Disk>(disk: &mut D, at: u64, bytes: &[u8]) -> Result<bool, Failed>
    requires { at + length bytes.now < 2 ^ 64 }
    ensures yes { IfOk result (λ r. WhereTold (D.seen disk.old)
        (λ c. IsTrue r ↔ (take (length bytes.now) (drop at c) ≡ bytes.now))) }
    ensures quiet { Quiet D.seen D.images D.moment D.images_since disk.old disk.new }
    ensures cause { HasCause (D.faults disk.old) (D.faults disk.new) result }
{
    let mut done = 0;
    while done < bytes.len() {
        let next = next_piece(done, bytes.len());
        if !piece_stands(disk, at + done as u64, &bytes[done..next])? {
            return Ok(false);
        }
        done = next;
    }
    Ok(true)
}

fn piece_stands<D: Disk>(disk: &mut D, at: u64, bytes: &[u8]) -> Result<bool, Failed>
    requires { length bytes.now ≤ 256 }
    ensures yes { IfOk result (λ r. WhereTold (D.seen disk.old)
        (λ c. IsTrue r ↔ (take (length bytes.now) (drop at c) ≡ bytes.now))) }
    ensures quiet { Quiet D.seen D.images D.moment D.images_since disk.old disk.new }
    ensures cause { HasCause (D.faults disk.old) (D.faults disk.new) result }
{
    let mut piece = [0u8; PIECE];
    read_and_compare(disk, at, &mut piece[..bytes.len()], bytes)
}

fn read_and_compare<D: Disk>(
    disk: &mut D,
    at: u64,
    room: &mut [u8],
    bytes: &[u8],
) -> Result<bool, Failed>
    requires { length room.old ≡ length bytes.now }
    ensures yes { IfOk result (λ r. WhereTold (D.seen disk.old)
        (λ c. IsTrue r ↔ (take (length bytes.now) (drop at c) ≡ bytes.now))) }
    ensures quiet { Quiet D.seen D.images D.moment D.images_since disk.old disk.new }
    ensures cause { HasCause (D.faults disk.old) (D.faults disk.new) result }
{
    let got = disk.read(at, room)?;
    Ok(same(got, room, bytes))
}

fn same(got: usize, room: &[u8], bytes: &[u8]) -> bool
    ensures { IsTrue result ↔ ((got ≡ length bytes.now) × (room.now ≡ bytes.now)) }
{
    got == bytes.len() && room == bytes
}

fn next_piece(done: usize, length: usize) -> usize
    requires { done < length }
    ensures more { done < result }
    ensures within { result ≤ length }
    ensures piece { result ≤ done + 256 }
{
    if length - done < PIECE {
        length
    } else {
        done + PIECE
    }
}
