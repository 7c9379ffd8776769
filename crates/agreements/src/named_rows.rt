ghost use Rattle.std.specs.Prelude.{◌≡◌, ◌<◌, ◌≤◌, ◌++◌, ◌∷◌, [], ℕ, false, Some, None};
ghost use Rattle.std.specs.Prelude.{◌==◌, length, option_map, slice_get, IfErr, IfOk, MatchOption};
ghost use Rattle.std.specs.Borrow.{Bor};
ghost use Rattle.std.specs.List.{find};
ghost use Rattle.agreements.specs.Index.{HasPlaces, has_name, place_of};

use std::alloc::{AllocError, Global};
use std::collections::BTreeMap;
use std::marker::Model;

/// What has a name.
pub(crate) trait Named: Drop {
    ghost name: { Self → ℕ };

    /// The number that its name is.
    fn name(&self) -> u64
        ensures { result ≡ name self.now };
}

/// At most 4,096 rows of different names, found by these in a tree. Contracts see the list of the
/// rows.
#[derive(Drop)]
pub(crate) struct NamedRows<R: Named> {
    rows: Vec<R>,
    index: BTreeMap<u64, u32>,
}

impl<R: Named> Model for NamedRows<R> {
    ghost use Rattle.std.specs.Prelude.{List, length, ◌≤◌};
    ghost use Rattle.agreements.specs.Index.{HasPlaces, IsIndex};

    ghost Value = { List R };

    ghost view = { λ d. d.rows.items };

    ghost invariant = { λ d. IsIndex R.name d.index d.rows.items
        × (length d.rows.items ≤ 4096) × HasPlaces R.name d.rows.items };
}

impl<R: Named> NamedRows<R> {
    pub(crate) fn new(alloc: Global) -> NamedRows<R>
        ensures { result ≡ [] }
    {
        NamedRows {
            rows: Vec::new(alloc),
            index: BTreeMap::new(alloc),
        }
    }

    /// Whether a row has this name.
    pub(crate) fn contains(&self, name: u64) -> bool
        ensures { result ≡ has_name R.name name self.now }
    {
        self.index.contains_key(&name)
    }

    /// The row of this name and its number, or none exactly where no row has it.
    pub(crate) fn find(&self, name: u64) -> Option<(u32, &R)>
        ensures { MatchOption result (place_of R.name name self.now ≡ None)
            (λ p. (place_of R.name name self.now ≡ Some p.0)
            × (slice_get self.now p.0 ≡ Some p.1.now)) }
    {
        let at = *self.index.get(&name)?;
        Some((at, &self.rows[at as usize]))
    }

    /// The row of this name, or none exactly where no row has it.
    pub(crate) fn row(&self, name: u64) -> Option<&R>
        ensures { option_map (λ (r : Bor R). r.now) result
            ≡ find (λ r. R.name r == name) self.now }
    {
        match self.find(name) {
            Some((_, row)) => Some(row),
            None => None,
        }
    }

    pub(crate) fn as_slice(&self) -> &[R]
        ensures rows { result.now ≡ self.now }
        ensures few { length self.now ≤ 4096 }
        ensures places { HasPlaces R.name self.now }
    {
        self.rows.as_slice()
    }

    /// Adds a row of a new name. The one error is want of memory, after which they are as before.
    pub(crate) fn push(&mut self, row: R) -> Result<(), AllocError>
        requires room { length self.old < 4096 }
        requires new { has_name R.name (R.name row) self.old ≡ false }
        ensures ok { IfOk result (λ _. self.new ≡ self.old ++ row ∷ []) }
        ensures stays { IfErr result (λ _. self.new ≡ self.old) }
    {
        let at = self.rows.len() as u32;
        let name = row.name();
        self.rows.reserve(1)?;
        self.index.insert(name, at)?;
        self.rows.push(row)?;
        Ok(())
    }
}
