ghost use Rattle.std.specs.Prelude.{◌≡◌, ◌≤◌, ◌==◌, length, nat_le, position, slice_get, IsTrue};
ghost use Rattle.std.specs.List.{filter};
ghost use Rattle.wire_ids.specs.Lists.{changed, holds_of};
ghost use Rattle.entry_codec.specs.declared.device.Granted as Granted_;
ghost use Rattle.entry_codec.specs.Devices.{called_back, can_grant, is_from, is_granted};
ghost use Rattle.entry_codec.specs.Devices.{is_pending, joined, kept_count, lapsed, lent_out};
ghost use Rattle.entry_codec.specs.Fits.{can_queue};
ghost use Rattle.entry_codec.specs.Ordered.{place_in};
ghost use Rattle.entry_codec.specs.Devices.{marked, net_of, put_granted, queued, rejoined};
ghost use Rattle.entry_codec.specs.Devices.{uses_pending, with_grant};
ghost use Rattle.entry_codec.specs.Devices.{with_count, with_own, with_seed, with_session};

use crate::uplink::queue;
use arrayvec::ArrayVec;
use contexts::{Context, Item, Origin, Slots, offer_new};
use entries::{OwnContext, UsedSeed};
use wire_ids::{Eui, Moment, NetId, Nonce24, Seed};

/// A seed under which a device may still send rejoins, and the last RJcount0 of one.
#[derive(Clone, Copy)]
pub struct KeptSeed {
    pub seed: Seed,
    pub rj_count0: Option<u16>,
}

impl Default for KeptSeed {
    /// The seed that stands where none is kept.
    fn default() -> KeptSeed {
        KeptSeed {
            seed: Seed {
                nonce: Nonce24::from_be_bytes([0; 3]),
                join_eui: Eui(0),
                counter: 0,
            },
            rj_count0: None,
        }
    }
}

/// To which network a device is lent, and until when.
#[derive(Clone, Copy)]
pub struct LentTo {
    pub net: NetId,
    pub until: Moment,
}

/// A passive session of a device that a network was granted, and until when.
#[derive(Clone, Copy)]
pub struct Granted {
    pub net: NetId,
    pub until: Moment,
}

impl Default for Granted {
    /// What stands where no session is granted.
    fn default() -> Granted {
        Granted {
            net: NetId::from_be_bytes([0; 3]),
            until: Moment(0),
        }
    }
}

/// What the desk keeps of a device of the tables. The fields lie in memory in this order, so that
/// what a request reads of them stands in few lines of it.
#[derive(Drop)]
pub struct Device {
    /// By NetID.
    pub granted: ArrayVec<Granted, 32>,
    /// The seeds of its last activations, the newest first.
    pub seeds: ArrayVec<KeptSeed, 4>,
    pub lent: Option<LentTo>,
    pub dev_eui: Eui,
    pub join_eui: Eui,
    /// The last JoinNonce, 0 for none.
    pub join_nonce: Nonce24,
    /// The last DevNonce.
    pub dev_nonce: Option<u16>,
    /// Whether it is at home in the desk's own network.
    pub is_home: bool,
    pub suspended: bool,
    pub slots: Slots,
    /// The last RJcount1.
    pub rj_count1: Option<u16>,
}

impl Device {
    /// What ends at this moment, or ended before, is gone.
    #[tactic(auto, unfolding(crate::specs::Devices::lapsed))]
    pub(crate) fn lapse(&mut self, at: u64)
        ensures { self.new ≡ lapsed at self.old }
    {
        if let Some(lent) = self.lent {
            if lent.until.0 <= at {
                self.lent = None;
            }
        }
        end_granted(&mut self.granted, at);
    }

    // Puts a seed first, and drops the fifth.
    fn put_seed(&mut self, seed: &Seed)
        ensures { self.new ≡ with_seed seed.now self.old }
    {
        self.seeds.truncate(3);
        self.seeds.insert(
            0,
            KeptSeed {
                seed: *seed,
                rj_count0: None,
            },
        );
    }

    // Makes the context of this desk the pending one, where there is one.
    fn offer_own(&mut self, seed: &Seed, own: Option<OwnContext>)
        ensures { self.new ≡ with_own seed.now own self.old }
    {
        if let Some(own) = own {
            let origin = Origin::Seeded(*seed);
            offer_new(&mut self.slots, own.dev_addr, origin, own.radio);
            self.lent = None;
        }
    }

    /// A join.
    #[tactic(auto, unfolding(crate::specs::Devices::joined))]
    pub(crate) fn join(&mut self, counter: u16, join_nonce: Nonce24, own: Option<OwnContext>)
        ensures { self.new ≡ joined counter join_nonce own self.old }
    {
        let seed = Seed {
            nonce: join_nonce,
            join_eui: self.join_eui,
            counter,
        };
        self.dev_nonce = Some(counter);
        self.join_nonce = join_nonce;
        self.offer_own(&seed, own);
        self.put_seed(&seed);
    }

    fn count_at(&mut self, place: u8, counter: u16)
        ensures { self.new ≡ with_count place counter self.old }
    {
        if let Some(kept) = self.seeds.get_mut(place as usize) {
            kept.rj_count0 = Some(counter);
        }
    }

    // Keeps the counter of a rejoin where it was looked at.
    fn keep_count(&mut self, used: UsedSeed, counter: u16)
        ensures { self.new ≡ kept_count used counter self.old }
    {
        match used {
            UsedSeed::Rejoin0(place) => self.count_at(place.get(), counter),
            UsedSeed::Rejoin1 => self.rj_count1 = Some(counter),
            UsedSeed::Rejoin2(place) => self.count_at(place.get(), counter),
        }
    }

    /// A rejoin.
    #[tactic(auto, unfolding(crate::specs::Devices::rejoined))]
    pub(crate) fn rejoin(
        &mut self,
        used: UsedSeed,
        counter: u16,
        join_nonce: Nonce24,
        own: Option<OwnContext>,
    )
        ensures { self.new ≡ rejoined used counter join_nonce own self.old }
    {
        let seed = Seed {
            nonce: join_nonce,
            join_eui: self.join_eui,
            counter,
        };
        self.join_nonce = join_nonce;
        self.keep_count(used, counter);
        self.put_seed(&seed);
        self.offer_own(&seed, own);
    }

    /// A join or a rejoin for the network to which the device is lent from then on.
    #[tactic(auto, unfolding(crate::specs::Devices::lent_out))]
    pub(crate) fn lend(
        &mut self,
        used: Option<UsedSeed>,
        counter: u16,
        join_nonce: Nonce24,
        to: LentTo,
    )
        ensures { self.new ≡ lent_out used counter join_nonce to self.old }
    {
        match used {
            None => self.join(counter, join_nonce, None),
            Some(used) => self.rejoin(used, counter, join_nonce, None),
        }
        self.lent = Some(to);
    }

    /// The lending ends.
    #[tactic(auto, unfolding(crate::specs::Devices::called_back))]
    pub(crate) fn call_back(&mut self)
        ensures { self.new ≡ called_back self.old }
    {
        self.lent = None;
    }

    /// Puts an item last into the queue of the active context.
    #[tactic(auto, unfolding(crate::specs::Devices::queued, crate::specs::Fits::can_queue))]
    pub(crate) fn push(&mut self, item: Item)
        requires { IsTrue (can_queue item.number self.old) }
        ensures { self.new ≡ queued item self.old }
    {
        if let Some(context) = &mut self.slots.active {
            queue(context, item);
        }
    }

    /// Grants a network a session.
    #[tactic(auto, unfolding(crate::specs::Devices::with_grant, crate::specs::Devices::can_grant))]
    pub(crate) fn grant(&mut self, new: Granted)
        requires { IsTrue (can_grant new self.old) }
        ensures { self.new ≡ with_grant new self.old }
    {
        put_granted(&mut self.granted, new);
    }

    // Whether the pending context was made with the kept seed in this place.
    fn is_pending(&self, place: u8) -> bool
        ensures { result ≡ is_pending place self.now }
    {
        match self.seeds.as_slice().get(place as usize) {
            None => false,
            Some(kept) => is_from(kept, &self.slots.pending),
        }
    }

    /// Whether a rejoin uses the seed of the pending context.
    #[tactic(auto, unfolding(crate::specs::Devices::uses_pending))]
    pub fn uses_pending(&self, used: UsedSeed) -> bool
        ensures { result ≡ uses_pending used self.now }
    {
        match used {
            UsedSeed::Rejoin0(place) => self.is_pending(place.get()),
            UsedSeed::Rejoin1 => false,
            UsedSeed::Rejoin2(place) => self.is_pending(place.get()),
        }
    }

    /// Marks the device as suspended, or not.
    #[tactic(auto, unfolding(crate::specs::Devices::marked))]
    pub(crate) fn mark(&mut self, suspended: bool)
        ensures { self.new ≡ marked suspended self.old }
    {
        self.suspended = suspended;
    }
}

// Ends the granted sessions that end at this moment, or ended before.
fn end_granted(granted: &mut ArrayVec<Granted, 32>, at: u64)
    ensures { granted.new.items ≡ filter (is_granted at) granted.old.items }
{
    granted.retain(|granted| at < granted.until.0);
}

fn first_from(granted: &[Granted], net: u32) -> Option<usize>
    ensures { result ≡ position (λ (g : Granted_.Granted). nat_le net g.net) granted.now }
{
    granted.iter().position(|granted| net <= granted.net.get())
}

// The place of a network's session.
#[tactic(auto, using(crate::proofs::Ordered::place_found, crate::proofs::Ordered::place_past))]
fn place(granted: &[Granted], net: u32) -> usize
    ensures { result ≡ place_in net_of net granted.now }
{
    match first_from(granted, net) {
        Some(at) => at,
        None => granted.len(),
    }
}

fn is_at(granted: &[Granted], at: usize, net: u32) -> bool
    ensures { result
        ≡ holds_of (λ (g : Granted_.Granted). g.net == net) (slice_get granted.now at) }
{
    match granted.get(at) {
        None => false,
        Some(granted) => granted.net.get() == net,
    }
}

fn replace(granted: &mut ArrayVec<Granted, 32>, at: usize, new: Granted)
    ensures { granted.new.items ≡ changed at (λ (old : Granted_.Granted). new) granted.old.items }
{
    if let Some(old) = granted.get_mut(at) {
        *old = new;
    }
}

// Puts a session in the place of its network.
fn put_granted(granted: &mut ArrayVec<Granted, 32>, new: Granted)
    requires { length (put_granted new granted.old.items) ≤ 32 }
    ensures { granted.new.items ≡ put_granted new granted.old.items }
{
    let net = new.net.get();
    let at = place(granted.as_slice(), net);
    if is_at(granted.as_slice(), at, net) {
        replace(granted, at, new);
    } else {
        granted.insert(at, new);
    }
}

// Whether a context was made with this seed.
fn is_from(kept: &KeptSeed, slot: &Option<Context>) -> bool
    ensures { result ≡ holds_of (is_from kept.now) slot.now }
{
    match slot {
        None => false,
        Some(context) => match context.origin {
            Origin::Seeded(own) => own.nonce.get() == kept.seed.nonce.get()
                && own.join_eui.0 == kept.seed.join_eui.0
                && own.counter == kept.seed.counter,
            Origin::Given { .. } => false,
        },
    }
}
