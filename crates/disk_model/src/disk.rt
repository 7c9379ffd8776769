ghost use Rattle.std.specs.Prelude.{◌≡◌, ◌+◌, ◌-◌, ◌≤◌, List, ℕ, Option, Some, None, length};
ghost use Rattle.std.specs.Prelude.{take, drop, min, IfOk, IsErr, OnOk, OnErr};
ghost use Rattle.wire_ids.specs.Causes.{HasCause};
ghost use Rattle.disk_model.specs.Disk.{Becomes, Counts, Elapses, Follows, NoneNew, Only};
ghost use Rattle.disk_model.specs.Disk.{Overwrites, Torn, WhereTold};

use crate::Failed;
use crate::faults::one_more;

/// Bytes that last. An image is what a crash may leave. Until a sync that succeeds a crash may
/// leave any bytes in each range that was written, and past the old end up to the new one, and any
/// length from the old one to the new one; a write that fails is a written range too. After the
/// sync it leaves what a read gives. One count of faults serves all four calls.
pub trait Disk {
    /// What a read gives, where the disk tells. A disk that isn't honest tells nothing.
    ghost seen: { Self → Option (List ℕ) };

    /// What a crash may leave now.
    ghost images: { Self → List ℕ → Type 0 };

    /// How many calls it has had.
    ghost moment: { Self → ℕ };

    /// What a crash at some moment from that one on might have left.
    ghost images_since: { Self → ℕ → List ℕ → Type 0 };

    /// How often it has failed. The count stands still at 2^64 - 1.
    ghost faults: { Self → ℕ };

    /// How many bytes it holds.
    fn len(&mut self) -> Result<u64, Failed>
        ensures length { IfOk result (λ n. WhereTold (seen self.old) (λ c. n ≡ length c)) }
        ensures seen { seen self.new ≡ seen self.old }
        ensures crash { NoneNew (images self.old) (images self.new) }
        ensures time { Elapses (moment self.old) (moment self.new)
            (images_since self.old) (images_since self.new) (images self.new) }
        ensures counts { Counts (moment self.old) (moment self.new) result }
        ensures cause { HasCause (faults self.old) (faults self.new) result };

    /// Puts the bytes at a place into the front of the room, and says how many: fewer than the room
    /// has only at the end.
    fn read(&mut self, at: u64, room: &mut [u8]) -> Result<usize, Failed>
        ensures bound { IfOk result (λ n. n ≤ length room.new) }
        ensures count { IfOk result (λ n. WhereTold (seen self.old)
            (λ c. n ≡ min (length room.new) (length c - at))) }
        ensures bytes { IfOk result (λ n. WhereTold (seen self.old)
            (λ c. take n room.new ≡ take n (drop at c))) }
        ensures seen { seen self.new ≡ seen self.old }
        ensures crash { NoneNew (images self.old) (images self.new) }
        ensures time { Elapses (moment self.old) (moment self.new)
            (images_since self.old) (images_since self.new) (images self.new) }
        ensures counts { Counts (moment self.old) (moment self.new) result }
        ensures cause { HasCause (faults self.old) (faults self.new) result };

    /// Writes over what stands at a place, and past the end. The place is at most the length.
    fn write_at(&mut self, at: u64, bytes: &[u8]) -> Result<(), Failed>
        requires within { WhereTold (seen self.old) (λ c. at ≤ length c) }
        ensures written { OnOk result
            (Becomes (seen self.old) (seen self.new) (Overwrites at bytes.now)) }
        ensures failed { OnErr result
            (Becomes (seen self.old) (seen self.new) (Torn at (length bytes.now))) }
        ensures crash { Follows (Torn at (length bytes.now)) (images self.old) (images self.new) }
        ensures time { Elapses (moment self.old) (moment self.new)
            (images_since self.old) (images_since self.new) (images self.new) }
        ensures counts { Counts (moment self.old) (moment self.new) result }
        ensures cause { HasCause (faults self.old) (faults self.new) result };

    /// Makes what it holds last: after it a crash leaves what a read gives.
    fn sync(&mut self) -> Result<(), Failed>
        ensures lasts { OnOk result (WhereTold (seen self.old) (Only (images self.new))) }
        ensures seen { seen self.new ≡ seen self.old }
        ensures crash { NoneNew (images self.old) (images self.new) }
        ensures time { Elapses (moment self.old) (moment self.new)
            (images_since self.old) (images_since self.new) (images self.new) }
        ensures counts { Counts (moment self.old) (moment self.new) result }
        ensures cause { HasCause (faults self.old) (faults self.new) result };

    /// What a read gives is one of the images.
    ghost seen_is_image: { (disk : Self) (c : List ℕ) → seen disk ≡ Some c → images disk c };

    /// The images of now are among those since an earlier moment.
    ghost now_is_since: { (disk : Self) (t : ℕ) (c : List ℕ) → t ≤ moment disk → images disk c
        → images_since disk t c };

    /// Since this moment there are no others.
    ghost since_is_now: { (disk : Self) (c : List ℕ) → images_since disk (moment disk) c
        → images disk c };
}

/// A disk that isn't there: each call fails and is counted.
#[derive(Drop)]
pub struct ClosedDisk {
    faults: u64,
}

impl ClosedDisk {
    ghost use Rattle.disk_model.specs.Closed.{disk_faults};

    /// A disk that isn't there, with no fault yet.
    pub fn new() -> ClosedDisk
        ensures { disk_faults result ≡ 0 }
    {
        ClosedDisk { faults: 0 }
    }

    /// How often it has failed.
    pub fn faults(&self) -> u64
        ensures { result ≡ disk_faults self.now }
    {
        self.faults
    }

    // Counts a fault and answers it.
    fn fail<T>(&mut self) -> Result<T, Failed>
        ensures cause { HasCause (disk_faults self.old) (disk_faults self.new) result }
        ensures err { IsErr result }
    {
        self.faults = one_more(self.faults);
        Err(Failed)
    }
}

impl Disk for ClosedDisk {
    ghost use Rattle.disk_model.specs.Closed.{disk_faults};

    ghost seen = { λ d. None };

    ghost images = { λ d c. ⊥ };

    ghost moment = { λ d. 0 };

    ghost images_since = { λ d t c. ⊥ };

    ghost faults = { disk_faults };

    ghost seen_is_image = { λ d c told. absurd (cc told) };

    ghost now_is_since = { λ d t c le now. now };

    ghost since_is_now = { λ d c since. since };

    fn len(&mut self) -> Result<u64, Failed>
        ensures err { IsErr result }
        ensures cause { HasCause (disk_faults self.old) (disk_faults self.new) result }
    {
        self.fail()
    }

    fn read(&mut self, at: u64, room: &mut [u8]) -> Result<usize, Failed>
        ensures err { IsErr result }
        ensures cause { HasCause (disk_faults self.old) (disk_faults self.new) result }
    {
        self.fail()
    }

    fn write_at(&mut self, at: u64, bytes: &[u8]) -> Result<(), Failed>
        ensures err { IsErr result }
        ensures cause { HasCause (disk_faults self.old) (disk_faults self.new) result }
    {
        self.fail()
    }

    fn sync(&mut self) -> Result<(), Failed>
        ensures err { IsErr result }
        ensures cause { HasCause (disk_faults self.old) (disk_faults self.new) result }
    {
        self.fail()
    }
}
