ghost use Rattle.std.specs.Prelude.{◌≡◌, ◌<◌, List, ℕ, [], ◌∷◌, length, Option, Some};
ghost use Rattle.disk_model.specs.Moments.{Told};

/// Tells the moment.
pub trait Clock {
    /// The moments that it tells next, by their number from 0 on, where it tells.
    ghost tells: { Self → Option (ℕ → ℕ) };

    /// The moment, in whole seconds.
    fn now(&mut self) -> u64
        ensures { Told (tells self.old) (tells self.new) (result ∷ []) };
}

/// Tells the moments of a list that isn't empty, in order, and then the last one at each call.
#[derive(Drop)]
pub struct FixedClock {
    moments: Vec<u64>,
    at: usize,
    ghost within: { at < length moments.items },
}

impl FixedClock {
    ghost use Rattle.disk_model.specs.Fixed.{at_or_last, moment_after};

    /// A clock that tells these moments, of which there is one at least.
    pub fn new(moments: Vec<u64>) -> FixedClock
        requires some { 0 < length moments.items }
        ensures { (n : ℕ) → moment_after result n ≡ at_or_last moments.items n }
    {
        FixedClock { moments, at: 0 }
    }
}

impl Clock for FixedClock {
    ghost use Rattle.disk_model.specs.Fixed.{moment_after};

    ghost tells = { λ c. Some (moment_after c) };

    fn now(&mut self) -> u64 {
        let moment = self.moments[self.at];
        if self.at + 1 < self.moments.len() {
            self.at += 1;
        }
        moment
    }
}

/// A clock that isn't there: it tells 0 at each call.
#[derive(Clone, Copy, Drop)]
pub struct ClosedClock;

impl ClosedClock {
    /// A clock that isn't there.
    pub fn new() -> ClosedClock {
        ClosedClock
    }
}

impl Clock for ClosedClock {
    ghost tells = { λ c. Some (λ n. 0) };

    fn now(&mut self) -> u64 {
        0
    }
}
