ghost use Rattle.std.specs.Prelude.{◌≡◌, ◌↔◌, ◌<◌, length, slice_get, IsTrue, None, true, false};
ghost use Rattle.disk_model.specs.Disk.{LeavesOnly, WhereTold};
ghost use Rattle.entries.specs.Entries.{encode_of};
ghost use Rattle.keepers.specs.Keeper.{HoldsOnly, OneMoreOrNot};
ghost use Rattle.book.specs.Results.{IsMarked, MarksSo, mark_of, moment_in, suspended_in};

use crate::answered::Marked;
use crate::book::Book;
use crate::pages::Written;
use entries::{Entry, Event};
use entry_codec::Device;
use keepers::Keeper;
use key_vault::BlockFn;
use std::alloc::Global;
use wire_ids::Moment;

// The entry that suspends a device, or resumes it.
fn mark_of(suspended: bool, device: u32, moment: Moment) -> Entry
    ensures { result ≡ mark_of suspended device moment.0 }
{
    let event = if suspended {
        Event::Suspend(device)
    } else {
        Event::Resume(device)
    };
    Entry { moment, event }
}

fn is_suspended(devices: &[Device], device: u32) -> bool
    ensures { result ≡ suspended_in (slice_get devices.now device) }
{
    match devices.get(device as usize) {
        None => false,
        Some(row) => row.suspended,
    }
}

impl<K: Keeper, E: BlockFn, D: BlockFn> Book<K, E, D> {
    // Whether the device is suspended, or isn't.
    fn is_marked(&self, device: u32, suspended: bool) -> bool
        ensures { IsTrue result ↔ IsMarked suspended device self.now }
    {
        is_suspended(self.devices(), device) == suspended
    }

    // The devices of the tables, in their order.
    fn devices(&self) -> &[Device]
        ensures { result.now ≡ self.now.page.desk.now.devices }
    {
        self.state().devices()
    }

    // Suspends the device, or resumes it.
    fn mark(&mut self, alloc: Global, suspended: bool, device: u32, now: Moment) -> Marked
        requires whole { self.old.page.tried ≡ None }
        requires device { device < length self.old.page.config.devices }
        ensures marks { MarksSo (K.is_full self.old.page.keeper) result suspended device now.0
            self.old self.new }
        ensures changes { K.changes self.new.page.keeper ≡ K.changes self.old.page.keeper }
        ensures any_moment { WhereTold self.old.page.records
            (λ rs. LeavesOnly K.moment K.held_since self.old.page.keeper self.new.page.keeper
            (OneMoreOrNot rs (encode_of (mark_of suspended device (moment_in self.old now.0))))) }
    {
        self.sound();
        if self.is_marked(device, suspended) {
            return Marked::Already;
        }
        let moment = self.moment(now);
        if !self.can_enter(moment, now) {
            return Marked::Memory;
        }
        match self.enter(alloc, mark_of(suspended, device, moment)) {
            Written::Done => Marked::Done,
            Written::NotKept => Marked::Fault,
            Written::NoRoom => Marked::Full,
            Written::NoMemory => Marked::Memory,
        }
    }

    /// Suspends the device of this number in the tables, where the clock reads `now`: it makes no
    /// new session until it is resumed. `Already` exactly where it is suspended.
    pub fn suspend(&mut self, alloc: Global, device: u32, now: Moment) -> Marked
        requires whole { self.old.page.tried ≡ None }
        requires device { device < length self.old.page.config.devices }
        ensures marks { MarksSo (K.is_full self.old.page.keeper) result true device now.0 self.old
            self.new }
        ensures changes { K.changes self.new.page.keeper ≡ K.changes self.old.page.keeper }
        // At each moment each image has the entries before, with the mark or without it.
        ensures any_moment { WhereTold self.old.page.records
            (λ rs. LeavesOnly K.moment K.held_since self.old.page.keeper self.new.page.keeper
            (OneMoreOrNot rs (encode_of (mark_of true device (moment_in self.old now.0))))) }
        ensures held { self.new.page.tried ≡ None → WhereTold self.new.page.records
            (HoldsOnly (K.holds self.new.page.keeper)) }
    {
        let marked = self.mark(alloc, true, device, now);
        self.sound();
        marked
    }

    /// Resumes the device of this number in the tables, where the clock reads `now`. `Already`
    /// exactly where it isn't suspended.
    pub fn resume(&mut self, alloc: Global, device: u32, now: Moment) -> Marked
        requires whole { self.old.page.tried ≡ None }
        requires device { device < length self.old.page.config.devices }
        ensures marks { MarksSo (K.is_full self.old.page.keeper) result false device now.0 self.old
            self.new }
        ensures changes { K.changes self.new.page.keeper ≡ K.changes self.old.page.keeper }
        // At each moment each image has the entries before, with the mark or without it.
        ensures any_moment { WhereTold self.old.page.records
            (λ rs. LeavesOnly K.moment K.held_since self.old.page.keeper self.new.page.keeper
            (OneMoreOrNot rs (encode_of (mark_of false device (moment_in self.old now.0))))) }
        ensures held { self.new.page.tried ≡ None → WhereTold self.new.page.records
            (HoldsOnly (K.holds self.new.page.keeper)) }
    {
        let marked = self.mark(alloc, false, device, now);
        self.sound();
        marked
    }
}
