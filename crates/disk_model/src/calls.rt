ghost use Rattle.std.specs.Prelude.{◌≡◌, ◌+◌, ◌≤◌, ◌<◌, List, ℕ, [], ◌∷◌, ◌++◌, Option, Some};
ghost use Rattle.std.specs.Prelude.{◌↔◌, length, option_map, vec_len, vec_capacity, IfOk, IsErr};
ghost use Rattle.std.specs.Prelude.{OnOk};
ghost use Rattle.std.specs.VecDeque.{deque_len};
ghost use Rattle.wire_ids.specs.Causes.{HasCause};
ghost use Rattle.disk_model.specs.Connections.{Gives, IsOut, TakesBack, out_after};

use crate::plan::Plan;
use crate::{Failed, Sink, Source};
use std::alloc::Global;
use std::collections::VecDeque;
use wire_ids::Memory;

/// Gives the connections of clients.
pub trait Calls {
    /// What comes in on a connection.
    type Incoming: Source;

    /// What goes out on it.
    type Outgoing: Sink;

    /// The connections that are left, where it tells.
    ghost left: { Self → Option (List (Self.Incoming × Self.Outgoing)) };

    /// Those that were given back, where it tells.
    ghost back: { Self → Option (List (Self.Incoming × Self.Outgoing)) };

    /// How many were given and not yet given back, where it tells.
    ghost out: { Self → Option ℕ };

    /// How often it has failed. The count stands still at 2^64 - 1.
    ghost faults: { Self → ℕ };

    /// The first connection that is left, as it was made, or None at the end. A call that fails
    /// gives none.
    fn next(&mut self) -> Result<Option<(Self::Incoming, Self::Outgoing)>, Failed>
        ensures left { Gives (left self.old) (left self.new) result }
        ensures back { back self.new ≡ back self.old }
        ensures out { out self.new ≡ option_map (out_after result) (out self.old) }
        ensures cause { HasCause (faults self.old) (faults self.new) result };

    /// Takes back a connection that was served. It goes behind those given back before.
    fn done(&mut self, incoming: Self::Incoming, outgoing: Self::Outgoing)
        requires out { IsOut (out self.old) }
        ensures left { left self.new ≡ left self.old }
        ensures back { TakesBack (back self.old) (back self.new) (incoming, outgoing) }
        ensures out { option_map (λ n. n + 1) (out self.new) ≡ out self.old }
        ensures later { faults self.old ≤ faults self.new };
}

/// Connections that lie in memory and are given in order. It keeps those that are given back, in
/// the room that was made with it.
#[derive(Drop)]
pub struct MemoryCalls<I, O> {
    left: VecDeque<(I, O)>,
    back: Vec<(I, O)>,
    made: usize,
    plan: Plan,
    ghost within: { deque_len left + vec_len back ≤ made },
    ghost room: { made ≤ vec_capacity back },
}

impl<I: Source + Drop, O: Sink + Drop> MemoryCalls<I, O> {
    ghost use Rattle.disk_model.specs.CallsInMemory.{calls_left, calls_back, calls_out};
    ghost use Rattle.disk_model.specs.CallsInMemory.{calls_faults};
    ghost use Rattle.disk_model.specs.Plan.{HasPlan};

    /// Gives these connections in order, and no call fails.
    pub fn new(alloc: Global, connections: Vec<(I, O)>) -> Result<MemoryCalls<I, O>, Memory>
        ensures left { IfOk result (λ c. calls_left c ≡ connections.items) }
        ensures back { IfOk result (λ c. calls_back c ≡ []) }
        ensures out { IfOk result (λ c. calls_out c ≡ 0) }
        ensures faults { IfOk result (λ c. calls_faults c ≡ 0) }
        ensures plan { IfOk result (λ c. HasPlan c.plan 0 0) }
    {
        MemoryCalls::with(alloc, connections, 0, 0)
    }

    /// Gives these connections in order. The first `passes` calls of `next` succeed, the next
    /// `fails` calls fail, and those after them succeed.
    pub fn with(
        alloc: Global,
        connections: Vec<(I, O)>,
        passes: u64,
        fails: u64,
    ) -> Result<MemoryCalls<I, O>, Memory>
        ensures left { IfOk result (λ c. calls_left c ≡ connections.items) }
        ensures back { IfOk result (λ c. calls_back c ≡ []) }
        ensures out { IfOk result (λ c. calls_out c ≡ 0) }
        ensures faults { IfOk result (λ c. calls_faults c ≡ 0) }
        ensures plan { IfOk result (λ c. HasPlan c.plan passes fails) }
    {
        let made = connections.len();
        Ok(MemoryCalls {
            left: VecDeque::from_vec(connections),
            back: Vec::with_capacity(alloc, made)?,
            made,
            plan: Plan::new(passes, fails),
        })
    }

    /// The connections that were given back, in order.
    pub fn back(&self) -> &[(I, O)]
        ensures { result.now ≡ calls_back self.now }
    {
        self.back.as_slice()
    }

    /// How often it has failed.
    pub fn faults(&self) -> u64
        ensures { result ≡ calls_faults self.now }
    {
        self.plan.faults
    }
}

impl<I: Source + Drop, O: Sink + Drop> Calls for MemoryCalls<I, O> {
    ghost use Rattle.disk_model.specs.CallsInMemory.{calls_left, calls_back, calls_out};
    ghost use Rattle.disk_model.specs.CallsInMemory.{calls_faults};
    ghost use Rattle.disk_model.specs.Plan.{FollowsPlan, IsFailing};

    type Incoming = I;

    type Outgoing = O;

    ghost left = { λ c. Some (calls_left c) };

    ghost back = { λ c. Some (calls_back c) };

    ghost out = { λ c. Some (calls_out c) };

    ghost faults = { calls_faults };

    fn next(&mut self) -> Result<Option<(I, O)>, Failed>
        ensures left { Gives (Some (calls_left self.old)) (Some (calls_left self.new)) result }
        ensures back { calls_back self.new ≡ calls_back self.old }
        ensures out { calls_out self.new ≡ out_after result (calls_out self.old) }
        ensures cause { HasCause (calls_faults self.old) (calls_faults self.new) result }
        ensures stays { OnOk result (calls_faults self.new ≡ calls_faults self.old) }
        ensures fails { IsErr result ↔ IsFailing self.old.plan }
        ensures plan { FollowsPlan self.old.plan self.new.plan }
    {
        self.plan.call()?;
        Ok(self.left.pop_front())
    }

    fn done(&mut self, incoming: I, outgoing: O)
        requires out { 0 < calls_out self.old }
        ensures left { calls_left self.new ≡ calls_left self.old }
        ensures back { calls_back self.new ≡ calls_back self.old ++ (incoming, outgoing) ∷ [] }
        ensures out { calls_out self.new + 1 ≡ calls_out self.old }
        ensures plan { self.new.plan ≡ self.old.plan }
    {
        keep(&mut self.back, (incoming, outgoing));
    }
}

// Puts one more into a list that has room for it.
fn keep<C: Drop>(kept: &mut Vec<C>, one: C)
    requires room { vec_len kept.old < vec_capacity kept.old }
    ensures items { kept.new.items ≡ kept.old.items ++ one ∷ [] }
    ensures len { vec_len kept.new ≡ vec_len kept.old + 1 }
    ensures capacity { vec_capacity kept.old ≤ vec_capacity kept.new }
{
    match kept.push(one) {
        Ok(()) => {}
        Err(_) => {}
    }
}
