ghost use Rattle.std.specs.Prelude.{◌≡◌, ◌<◌, ◌==◌, length, slice_set, IfOk, None, Some, true};
ghost use Rattle.std.specs.Prelude.{if◌then◌else◌, option_and_then, replicate, ℕ};
ghost use Rattle.wire_ids.specs.declared.address.DevAddr as dev_addr;
ghost use Rattle.address_table.specs.Table.{IsFirstFree, addr_at, knows, owner_of, place_of};
ghost use Rattle.address_table.specs.Table.{place_left, sooner, window};

use crate::Owner;
use crate::places::Places;
use std::alloc::Global;
use std::marker::Model;
use wire_ids::{DevAddr, Memory};

/// How many addresses, from the first one on, have a cell.
pub const WINDOW: usize = 10_368;

/// The owners of addresses. Those of a window have a cell each, so that one is found in one step.
/// An address outside it isn't kept; once one was put in, the table knows nothing of those.
#[derive(Drop)]
pub struct AddressTable {
    first: u32,
    cells: Vec<Option<Owner>>,
    // Which cells have an owner.
    taken: Places,
    strays: bool,
}

impl Model for AddressTable {
    ghost use Rattle.std.specs.Prelude.{◌≡◌, is_some, length, map};
    ghost use Rattle.address_table.specs.Table.{Table, window};

    ghost Value = { Table };

    ghost view = { λ a. record {
      first = a.first;
      cells = a.cells.items;
      strays = a.strays;
    } };

    ghost invariant = { λ a. (length a.cells.items ≡ window)
        × (a.taken ≡ map is_some a.cells.items) };
}

// Cells without owners.
fn no_owners(alloc: Global) -> Result<Vec<Option<Owner>>, Memory>
    ensures { IfOk result (λ v. v.items ≡ replicate window None) }
{
    let mut cells = Vec::with_capacity(alloc, WINDOW)?;
    for done in 0..WINDOW {
        let _ = done;
        cells.push_reserved(None);
    }
    Ok(cells)
}

// The first free place, or the one that is left where it comes before.
fn sooner(first: usize, left: Option<usize>) -> usize
    ensures { result ≡ sooner first left }
{
    match left {
        Some(place) if place < first => place,
        _ => first,
    }
}

impl AddressTable {
    /// No address of the window from this one on has an owner. The one error is want of memory.
    pub fn new(alloc: Global, first: DevAddr) -> Result<AddressTable, Memory>
        ensures { IfOk result (λ table. (addr : dev_addr.DevAddr) →
            owner_of addr table ≡ None) }
    {
        Ok(AddressTable {
            first: first.0,
            cells: no_owners(alloc)?,
            taken: Places::new(alloc, WINDOW)?,
            strays: false,
        })
    }

    /// The first address of the window.
    pub fn first(&self) -> DevAddr
        ensures { result.0 ≡ self.now.first }
    {
        DevAddr(self.first)
    }

    // The place of an address's cell.
    fn place(&self, addr: DevAddr) -> Option<usize>
        ensures { result ≡ place_of addr self.now }
    {
        let place = addr.0.checked_sub(self.first)? as usize;
        if place < self.cells.len() {
            Some(place)
        } else {
            None
        }
    }

    /// Whether it is known who has the address, if anyone.
    #[tactic(auto, unfolding(crate::specs::Table::knows))]
    pub fn knows(&self, addr: DevAddr) -> bool
        ensures { result ≡ knows addr self.now }
    {
        self.place(addr).is_some() || !self.strays
    }

    /// Who has the address, where that is known.
    #[tactic(auto, unfolding(crate::specs::Table::owner_of))]
    pub fn owner(&self, addr: DevAddr) -> Option<Owner>
        ensures { result ≡ owner_of addr self.now }
    {
        match self.place(addr) {
            None => None,
            Some(place) => self.cells[place],
        }
    }

    // A cell comes to an owner.
    fn fill(&mut self, place: usize, owner: Owner)
        requires { place < length self.old.cells }
        ensures { self.new
            ≡ record self.old { cells = slice_set self.old.cells place (Some owner) } }
    {
        self.cells[place] = Some(owner);
        self.taken.take(place);
    }

    // A cell is left without one.
    fn clear(&mut self, place: usize)
        requires { place < length self.old.cells }
        ensures { self.new ≡ record self.old { cells = slice_set self.old.cells place None } }
    {
        self.cells[place] = None;
        self.taken.leave(place);
    }

    // An address without a cell comes in.
    fn stray(&mut self)
        ensures { self.new ≡ record self.old { strays = true } }
    {
        self.strays = true;
    }

    /// Makes this the owner of the address.
    pub fn put(&mut self, addr: DevAddr, owner: Owner)
        ensures known { (own : dev_addr.DevAddr) →
            knows own self.new ≡ true → knows own self.old ≡ true }
        ensures owners { (own : dev_addr.DevAddr) → knows own self.new ≡ true →
            owner_of own self.new
            ≡ (if addr.0 == own.0 then Some owner else owner_of own self.old) }
    {
        match self.place(addr) {
            None => self.stray(),
            Some(place) => self.fill(place, owner),
        }
    }

    /// Takes the address out.
    pub fn take_out(&mut self, addr: DevAddr)
        ensures known { (own : dev_addr.DevAddr) → knows own self.new ≡ knows own self.old }
        ensures owners { (own : dev_addr.DevAddr) →
            owner_of own self.new
            ≡ (if addr.0 == own.0 then None else owner_of own self.old) }
    {
        match self.place(addr) {
            None => {}
            Some(place) => self.clear(place),
        }
    }

    // The place of the address that leaves, where it has one.
    fn place_left(&self, leaving: Option<DevAddr>) -> Option<usize>
        ensures { result ≡ place_left leaving self.now }
    {
        match leaving {
            None => None,
            Some(addr) => self.place(addr),
        }
    }

    /// The place in the window of its first address without an owner, where the one that leaves
    /// counts as such, and None where each has one. Whether they have is known of all of them.
    pub fn first_free(&self, leaving: Option<DevAddr>) -> Option<usize>
        ensures free { IsFirstFree leaving self.now result }
        ensures known { (place : ℕ) → place < window →
            knows (addr_at place self.now) self.now ≡ true }
    {
        let free = sooner(self.taken.first(), self.place_left(leaving));
        if free < WINDOW { Some(free) } else { None }
    }
}
