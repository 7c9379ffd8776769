ghost use Rattle.std.specs.Prelude.{◌≡◌, ◌≤◌, ◌==◌, ℕ, length, map, if◌then◌else◌, Some};
ghost use Rattle.std.specs.Prelude.{IfOk, OnOk};
ghost use Rattle.std.specs.BTreeMap.{get};
ghost use Rattle.std.specs.Ordering.{nat_cmp};
ghost use Rattle.entry_codec.specs.Index.{IsIndex, row_number};

use agreements::DeviceRow;
use std::alloc::{AllocError, Global};
use std::collections::BTreeMap;
use wire_ids::{Eui, Memory};

/// Where the device of each DevEUI stands in the tables.
#[derive(Drop)]
pub(crate) struct Index {
    places: BTreeMap<u64, u32>,
}

fn put(places: &mut BTreeMap<u64, u32>, key: u64, at: u32) -> Result<(), AllocError>
    ensures { OnOk result ((q : ℕ) →
        get nat_cmp places.new q ≡ (if key == q then Some at else get nat_cmp places.old q)) }
{
    places.insert(key, at)?;
    Ok(())
}

impl Index {
    pub(crate) fn new(alloc: Global, rows: &[DeviceRow]) -> Result<Index, Memory>
        requires { length rows.now ≤ 4096 }
        ensures { IfOk result (λ index. IsIndex index (map row_number rows.now)) }
    {
        let mut places = BTreeMap::new(alloc);
        let count = rows.len();
        for done in 0..count {
            let at = count - 1 - done;
            put(&mut places, rows[at].dev_eui.0, at as u32)?;
        }
        Ok(Index { places })
    }

    /// The place of this device.
    pub(crate) fn find(&self, dev: Eui) -> Option<u32>
        ensures { result ≡ get nat_cmp self.now.places dev.0 }
    {
        self.places.get(&dev.0).copied()
    }
}
