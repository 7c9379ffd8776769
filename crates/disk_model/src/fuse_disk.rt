ghost use Rattle.std.specs.Prelude.{◌≡◌, ◌+◌, ◌-◌, ◌<◌, ◌≤◌, length, take, drop, min};
ghost use Rattle.std.specs.Prelude.{IfOk, IsErr, OnOk, OnErr};
ghost use Rattle.disk_model.specs.Disk.{Becomes, Counts, Elapses, Follows, NoneNew, Only};
ghost use Rattle.disk_model.specs.Disk.{Overwrites, Torn, WhereTold};
ghost use Rattle.wire_ids.specs.Causes.{HasCause};

use crate::faults::one_more;
use crate::{Disk, Failed};

/// Passes so many calls on to a disk, and then fails each.
#[derive(Drop)]
pub struct FuseDisk<D: Disk> {
    disk: D,
    left: u64,
    blown: u64,
}

impl<D: Disk> FuseDisk<D> {
    ghost use Rattle.disk_model.specs.Fuse.{fuse_disk, fuse_left, fuse_blown};

    /// Passes the first `calls` calls on to this disk.
    pub fn new(disk: D, calls: u64) -> FuseDisk<D>
        ensures disk { fuse_disk result ≡ disk }
        ensures left { fuse_left result ≡ calls }
        ensures blown { fuse_blown result ≡ 0 }
    {
        FuseDisk {
            disk,
            left: calls,
            blown: 0,
        }
    }

    /// The disk that it passes calls on to.
    pub fn into_disk(self) -> D
        ensures { result ≡ fuse_disk self }
    {
        let FuseDisk { disk, .. } = self;
        disk
    }

    // One call less is left, or the fault of a call that none is left for.
    fn burn(&mut self) -> Result<(), Failed>
        ensures same { fuse_disk self.new ≡ fuse_disk self.old }
        ensures left { fuse_left self.new ≡ fuse_left self.old - 1 }
        ensures ok { OnOk result ((0 < fuse_left self.old)
            × (fuse_blown self.new ≡ fuse_blown self.old)) }
        ensures err { OnErr result (fuse_left self.old ≡ 0) }
        ensures cause { HasCause (fuse_blown self.old) (fuse_blown self.new) result }
    {
        if self.left == 0 {
            self.blown = one_more(self.blown);
            return Err(Failed);
        }
        self.left -= 1;
        Ok(())
    }
}

impl<D: Disk> Disk for FuseDisk<D> {
    ghost use Rattle.disk_model.specs.Fuse.{fuse_disk, fuse_left, fuse_blown};

    ghost seen = { λ d. D.seen (fuse_disk d) };

    ghost images = { λ d. D.images (fuse_disk d) };

    ghost moment = { λ d. D.moment (fuse_disk d) };

    ghost images_since = { λ d. D.images_since (fuse_disk d) };

    ghost faults = { λ d. D.faults (fuse_disk d) + fuse_blown d };

    ghost seen_is_image = { λ d. D.seen_is_image (fuse_disk d) };

    ghost now_is_since = { λ d. D.now_is_since (fuse_disk d) };

    ghost since_is_now = { λ d. D.since_is_now (fuse_disk d) };

    fn len(&mut self) -> Result<u64, Failed>
        ensures length { IfOk result
            (λ n. WhereTold (D.seen (fuse_disk self.old)) (λ c. n ≡ length c)) }
        ensures seen { D.seen (fuse_disk self.new) ≡ D.seen (fuse_disk self.old) }
        ensures crash { NoneNew (D.images (fuse_disk self.old)) (D.images (fuse_disk self.new)) }
        ensures time { Elapses (D.moment (fuse_disk self.old)) (D.moment (fuse_disk self.new))
            (D.images_since (fuse_disk self.old)) (D.images_since (fuse_disk self.new))
            (D.images (fuse_disk self.new)) }
        ensures counts { Counts (D.moment (fuse_disk self.old)) (D.moment (fuse_disk self.new))
            result }
        ensures cause { HasCause (D.faults (fuse_disk self.old) + fuse_blown self.old)
            (D.faults (fuse_disk self.new) + fuse_blown self.new) result }
        ensures left { fuse_left self.new ≡ fuse_left self.old - 1 }
        ensures spent { fuse_left self.old ≡ 0
            → IsErr result × (fuse_disk self.new ≡ fuse_disk self.old) }
        ensures passes { 0 < fuse_left self.old
            → HasCause (D.faults (fuse_disk self.old)) (D.faults (fuse_disk self.new)) result }
    {
        self.burn()?;
        self.disk.len()
    }

    fn read(&mut self, at: u64, room: &mut [u8]) -> Result<usize, Failed>
        ensures bound { IfOk result (λ n. n ≤ length room.new) }
        ensures count { IfOk result (λ n. WhereTold (D.seen (fuse_disk self.old))
            (λ c. n ≡ min (length room.new) (length c - at))) }
        ensures bytes { IfOk result (λ n. WhereTold (D.seen (fuse_disk self.old))
            (λ c. take n room.new ≡ take n (drop at c))) }
        ensures seen { D.seen (fuse_disk self.new) ≡ D.seen (fuse_disk self.old) }
        ensures crash { NoneNew (D.images (fuse_disk self.old)) (D.images (fuse_disk self.new)) }
        ensures time { Elapses (D.moment (fuse_disk self.old)) (D.moment (fuse_disk self.new))
            (D.images_since (fuse_disk self.old)) (D.images_since (fuse_disk self.new))
            (D.images (fuse_disk self.new)) }
        ensures counts { Counts (D.moment (fuse_disk self.old)) (D.moment (fuse_disk self.new))
            result }
        ensures cause { HasCause (D.faults (fuse_disk self.old) + fuse_blown self.old)
            (D.faults (fuse_disk self.new) + fuse_blown self.new) result }
        ensures left { fuse_left self.new ≡ fuse_left self.old - 1 }
        ensures spent { fuse_left self.old ≡ 0
            → IsErr result × (fuse_disk self.new ≡ fuse_disk self.old) }
        ensures passes { 0 < fuse_left self.old
            → HasCause (D.faults (fuse_disk self.old)) (D.faults (fuse_disk self.new)) result }
    {
        self.burn()?;
        self.disk.read(at, room)
    }

    fn write_at(&mut self, at: u64, bytes: &[u8]) -> Result<(), Failed>
        requires within { WhereTold (D.seen (fuse_disk self.old)) (λ c. at ≤ length c) }
        ensures written { OnOk result (Becomes (D.seen (fuse_disk self.old))
            (D.seen (fuse_disk self.new)) (Overwrites at bytes.now)) }
        ensures failed { OnErr result (Becomes (D.seen (fuse_disk self.old))
            (D.seen (fuse_disk self.new)) (Torn at (length bytes.now))) }
        ensures crash { Follows (Torn at (length bytes.now))
            (D.images (fuse_disk self.old)) (D.images (fuse_disk self.new)) }
        ensures time { Elapses (D.moment (fuse_disk self.old)) (D.moment (fuse_disk self.new))
            (D.images_since (fuse_disk self.old)) (D.images_since (fuse_disk self.new))
            (D.images (fuse_disk self.new)) }
        ensures counts { Counts (D.moment (fuse_disk self.old)) (D.moment (fuse_disk self.new))
            result }
        ensures cause { HasCause (D.faults (fuse_disk self.old) + fuse_blown self.old)
            (D.faults (fuse_disk self.new) + fuse_blown self.new) result }
        ensures left { fuse_left self.new ≡ fuse_left self.old - 1 }
        ensures spent { fuse_left self.old ≡ 0
            → IsErr result × (fuse_disk self.new ≡ fuse_disk self.old) }
        ensures passes { 0 < fuse_left self.old
            → HasCause (D.faults (fuse_disk self.old)) (D.faults (fuse_disk self.new)) result }
    {
        self.burn()?;
        self.disk.write_at(at, bytes)
    }

    fn sync(&mut self) -> Result<(), Failed>
        ensures lasts { OnOk result
            (WhereTold (D.seen (fuse_disk self.old)) (Only (D.images (fuse_disk self.new)))) }
        ensures seen { D.seen (fuse_disk self.new) ≡ D.seen (fuse_disk self.old) }
        ensures crash { NoneNew (D.images (fuse_disk self.old)) (D.images (fuse_disk self.new)) }
        ensures time { Elapses (D.moment (fuse_disk self.old)) (D.moment (fuse_disk self.new))
            (D.images_since (fuse_disk self.old)) (D.images_since (fuse_disk self.new))
            (D.images (fuse_disk self.new)) }
        ensures counts { Counts (D.moment (fuse_disk self.old)) (D.moment (fuse_disk self.new))
            result }
        ensures cause { HasCause (D.faults (fuse_disk self.old) + fuse_blown self.old)
            (D.faults (fuse_disk self.new) + fuse_blown self.new) result }
        ensures left { fuse_left self.new ≡ fuse_left self.old - 1 }
        ensures spent { fuse_left self.old ≡ 0
            → IsErr result × (fuse_disk self.new ≡ fuse_disk self.old) }
        ensures passes { 0 < fuse_left self.old
            → HasCause (D.faults (fuse_disk self.old)) (D.faults (fuse_disk self.new)) result }
    {
        self.burn()?;
        self.disk.sync()
    }
}
