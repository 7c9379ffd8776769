ghost use Rattle.std.specs.Prelude.{◌≡◌, ◌≤◌, List, IfSome, length, map, option_map};
ghost use Rattle.std.specs.Borrow.{Bor};
ghost use Rattle.toml.specs.View.{view};
ghost use Rattle.toml.specs.declared.value.Value as toml_value;
ghost use Rattle.agreements.specs.Rows.{desk_in, eui_array, join_euis_in, next_eui};
ghost use Rattle.agreements.specs.Steps.{Gives};

use crate::flaw::{Flaw, Why, once};
use crate::form::{Form, array_of, dl_settings, member, need, number_or, or_else, read_as, small};
use crate::key::Key;
use crate::reading::{ReadRow, read_rows};
use crate::{DeskRow, EuiList, Named, NamedRows, Unread};
use std::alloc::Global;
use toml::Value;
use wire_ids::{Eui, NetId};

impl Named for Eui {
    ghost name = { λ e. e.0 };

    fn name(&self) -> u64 {
        self.0
    }
}

/// The JoinEUIs of the desk.
#[derive(Drop)]
struct JoinEuis;

impl ReadRow for JoinEuis {
    type Row = Eui;

    ghost row_in = { λ _. next_eui };

    #[tactic(auto, unfolding(crate::specs::Rows::next_eui))]
    fn read_row(
        &self,
        _: Global,
        before: &NamedRows<Eui>,
        value: &Value,
    ) -> Result<Eui, Unread<Flaw>> {
        let eui = read_as(Key::JoinEuis, Eui::of(value))?;
        once(Key::JoinEuis, before.contains(eui.0))?;
        Ok(eui)
    }
}

// The values in an array of one to sixteen.
#[tactic(auto, unfolding(crate::specs::Rows::eui_array))]
fn eui_array(value: &Value) -> Option<&[Value]>
    ensures value { option_map
        (λ (values : Bor (List toml_value.Value)). map view values.now) result
        ≡ eui_array (view value.now) }
    ensures few { IfSome result (λ values. length values.now ≤ 16) }
{
    let values = array_of(value)?;
    if !values.is_empty() && values.len() <= 16 {
        Some(values)
    } else {
        None
    }
}

#[tactic(auto, unfolding(crate::specs::Rows::join_euis_in))]
fn read_join_euis(alloc: Global, row: &Value) -> Result<EuiList, Unread<Flaw>>
    ensures { Gives result (join_euis_in (view row.now)) }
{
    let Some(value) = member(row, Key::JoinEuis) else {
        return Err(Unread::Refused(Flaw::at(Why::Missing, Key::JoinEuis)));
    };
    let Some(values) = eui_array(value) else {
        return Err(Unread::Refused(Flaw::at(Why::BadValue, Key::JoinEuis)));
    };
    match read_rows(alloc, &JoinEuis, values) {
        Ok(euis) => Ok(EuiList::of(euis)),
        Err(Unread::Refused((place, Flaw { why, key, .. }))) => Err(Unread::Refused(Flaw {
            why,
            key,
            place: Some(place),
        })),
        Err(Unread::Memory) => Err(Unread::Memory),
    }
}

#[tactic(auto, unfolding(crate::specs::Rows::desk_in))]
pub(crate) fn read_desk(alloc: Global, row: &Value) -> Result<DeskRow, Unread<Flaw>>
    ensures { Gives result (desk_in (view row.now)) }
{
    let net_id: NetId = need(row, Key::NetId)?;
    let join_euis = read_join_euis(alloc, row)?;
    let dl_settings = dl_settings(row, Key::DlSettings)?;
    let rx_delay = small(row, Key::RxDelay, 15)?;
    let cf_list = or_else(row, Key::CfList, None)?;
    let lifetime_s = number_or(row, Key::LifetimeS, 1, u32::MAX, 31536000)?;
    let ask_s = number_or(row, Key::AskS, 1, 600, 30)?;
    Ok(DeskRow {
        net_id,
        join_euis,
        dl_settings,
        rx_delay,
        cf_list,
        lifetime_s,
        ask_s,
    })
}
