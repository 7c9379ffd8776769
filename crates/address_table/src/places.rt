//! Which places of a row are taken, with the first that is free.

ghost use Rattle.std.specs.Prelude.{◌≡◌, ◌<◌, ◌≤◌, ℕ, length, slice_index_or, slice_set};
ghost use Rattle.std.specs.Prelude.{IfOk, replicate, true, false};
ghost use Rattle.address_table.specs.Places.{IsFirst};

use std::alloc::Global;
use std::marker::Model;
use wire_ids::Memory;

/// So many places, each of them taken or free.
#[derive(Drop)]
pub(crate) struct Places {
    taken: Vec<bool>,
    // The first that is free, or the end, and the next one after it where that is known: an
    // owner that goes and comes back leaves it where it was.
    free: usize,
    next: Option<usize>,
}

impl Model for Places {
    ghost use Rattle.std.specs.Prelude.{Bool, IfSome, List, slice_set, true};
    ghost use Rattle.address_table.specs.Places.{IsFirst};

    ghost Value = { List Bool };

    ghost view = { λ p. p.taken.items };

    ghost invariant = { λ p. IsFirst p.taken.items p.free
        × IfSome p.next (λ n. IsFirst (slice_set p.taken.items p.free true) n) };
}

// The first place from this one on that is free, or the end.
fn first_from(taken: &[bool], from: usize) -> usize
    requires from { from ≤ length taken.now }
    requires before { (i : ℕ) → i < from → slice_index_or taken.now i false ≡ true }
    ensures { IsFirst taken.now result }
{
    let mut place = from;
    while place < taken.len() && taken[place] {
        place += 1;
    }
    place
}

impl Places {
    /// All are free. The one error is want of memory.
    pub(crate) fn new(alloc: Global, count: usize) -> Result<Places, Memory>
        ensures { IfOk result (λ places. places ≡ replicate count false) }
    {
        Ok(Places {
            taken: vec![in alloc; false; count]?,
            free: 0,
            next: None,
        })
    }

    /// The first that is free, and their number where none is.
    pub(crate) fn first(&self) -> usize
        ensures { IsFirst self.now result }
    {
        self.free
    }

    /// One is taken.
    pub(crate) fn take(&mut self, place: usize)
        requires { place < length self.old }
        ensures { self.new ≡ slice_set self.old place true }
    {
        self.taken[place] = true;
        if place == self.free {
            self.free = match self.next {
                Some(next) => next,
                None => first_from(self.taken.as_slice(), place + 1),
            };
            self.next = None;
        } else if let Some(next) = self.next {
            if place == next {
                self.next = None;
            }
        }
    }

    /// One is free.
    pub(crate) fn leave(&mut self, place: usize)
        requires { place < length self.old }
        ensures { self.new ≡ slice_set self.old place false }
    {
        self.taken[place] = false;
        if place < self.free {
            self.next = Some(self.free);
            self.free = place;
        } else if let Some(next) = self.next {
            if self.free < place && place < next {
                self.next = Some(place);
            }
        }
    }
}
