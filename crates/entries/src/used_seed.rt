ghost use Rattle.std.specs.Prelude.{◌≡◌, ◌<◌, Some, None, nat_lt, if◌then◌else◌};

use std::marker::Model;

/// The place of a kept seed of a device, 0 for the newest to 3. Contracts see it as that number.
#[derive(Clone, Copy, Debug, PartialEq, Eq)]
pub struct SeedPlace {
    place: u8,
}

impl Model for SeedPlace {
    ghost use Rattle.std.specs.Prelude.{◌<◌, ℕ};

    ghost Value = { ℕ };

    ghost view = { λ p. p.place };

    ghost invariant = { λ p. p.place < 4 };

    ghost inverse = { λ n. record { place = n } };
}

impl SeedPlace {
    /// The place of this number, None exactly from 4 on.
    pub fn new(place: u8) -> Option<SeedPlace>
        ensures { result ≡ (if nat_lt place 4 then Some place else None) }
    {
        if place < 4 {
            Some(SeedPlace { place })
        } else {
            None
        }
    }

    /// Its number, which is below 4.
    pub fn get(self) -> u8
        ensures number { result ≡ self }
        ensures small { result < 4 }
    {
        self.place
    }
}

/// The type of a rejoin (LoRaWAN 1.1, 6.2.4), and the kept seed under which it was checked.
#[derive(Clone, Copy, Debug, PartialEq, Eq)]
pub enum UsedSeed {
    Rejoin0(SeedPlace),
    /// A rejoin of type 1 is checked under no session.
    Rejoin1,
    Rejoin2(SeedPlace),
}
