//! The device that a request names.

ghost use Rattle.std.specs.Prelude.{◌≡◌, ◌<◌, length, slice_get, option_map, IfSome, Some};
ghost use Rattle.js_core.specs.Found.{found_now, found_of};

use agreements::{DeviceRow, Tables};
use entry_codec::{Device, State};
use wire_ids::Eui;

/// A device of the tables: its number there, its row, and what is kept of it.
#[derive(Clone, Copy)]
pub struct FoundDevice<'a> {
    pub number: u32,
    pub row: &'a DeviceRow,
    pub kept: &'a Device,
}

/// The device with this DevEUI, and None where the tables or the state have no row for it.
#[tactic(auto, unfolding(crate::specs::Found::found_of))]
pub fn found_device<'a>(tables: &'a Tables, state: &'a State, dev: Eui) -> Option<FoundDevice<'a>>
    ensures device { option_map found_now result ≡ found_of tables.now state.now.now dev }
    ensures number { IfSome result (λ f. f.number < length tables.now.devices) }
    ensures row { IfSome result (λ f. slice_get tables.now.devices f.number ≡ Some f.row.now) }
    ensures kept { IfSome result (λ f.
        slice_get state.now.now.devices f.number ≡ Some f.kept.now) }
{
    let Some((number, row)) = tables.device(dev) else {
        return None;
    };
    let Some(kept) = state.devices().get(number as usize) else {
        return None;
    };
    Some(FoundDevice { number, row, kept })
}
