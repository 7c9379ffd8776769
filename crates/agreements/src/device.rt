ghost use Rattle.std.specs.Prelude.{◌≡◌, IfOk, false};
ghost use Rattle.toml.specs.View.{view};
ghost use Rattle.agreements.specs.Rows.{device_in, has_device, identity_in, standing_in};
ghost use Rattle.agreements.specs.Steps.{Gives};

use crate::flaw::{Flaw, known, once};
use crate::form::{need, or_else, text_or_empty};
use crate::key::Key;
use crate::network::has_network;
use crate::reading::ReadRow;
use crate::{ApplicationRow, DeskRow, DeviceRow, EuiList, Named, NamedRows, NetworkRow, Unread};
use std::alloc::Global;
use toml::Value;
use wire_ids::{Eui, NetId, Text};

impl Named for DeviceRow {
    ghost name = { λ r. r.dev_eui.0 };

    fn name(&self) -> u64 {
        self.dev_eui.0
    }
}

/// A device's names and keys.
#[derive(Drop)]
pub(crate) struct Identity {
    dev_eui: Eui,
    join_eui: Eui,
    nwk_key: [u8; 16],
    app_key: [u8; 16],
}

/// Where a device belongs, and what it may do.
#[derive(Drop)]
pub(crate) struct Standing {
    home: NetId,
    app: Eui,
    roaming: bool,
    carry_app: bool,
    profile_time: Text,
}

#[tactic(auto, unfolding(crate::specs::Rows::identity_in))]
fn read_identity(
    join_euis: &EuiList,
    before: &NamedRows<DeviceRow>,
    value: &Value,
) -> Result<Identity, Unread<Flaw>>
    ensures value { Gives result (identity_in join_euis.now before.now (view value.now)) }
    ensures new { IfOk result (λ id. has_device id.dev_eui before.now ≡ false) }
{
    let dev_eui: Eui = need(value, Key::DevEui)?;
    once(Key::DevEui, before.contains(dev_eui.0))?;
    let join_eui: Eui = need(value, Key::JoinEui)?;
    known(Key::JoinEui, join_euis.contains(join_eui))?;
    let nwk_key = need(value, Key::NwkKey)?;
    let app_key = need(value, Key::AppKey)?;
    Ok(Identity {
        dev_eui,
        join_eui,
        nwk_key,
        app_key,
    })
}

#[tactic(auto, unfolding(crate::specs::Rows::standing_in))]
fn read_standing(
    alloc: Global,
    desk: NetId,
    networks: &NamedRows<NetworkRow>,
    applications: &NamedRows<ApplicationRow>,
    value: &Value,
) -> Result<Standing, Unread<Flaw>>
    ensures { Gives result (standing_in desk networks.now applications.now (view value.now)) }
{
    let home: NetId = need(value, Key::Home)?;
    let there = desk.get() == home.get() || has_network(networks, home);
    known(Key::Home, there)?;
    let app: Eui = need(value, Key::App)?;
    known(Key::App, applications.contains(app.0))?;
    let roaming = or_else(value, Key::Roaming, true)?;
    let carry_app = or_else(value, Key::CarryApp, false)?;
    let profile_time = text_or_empty(alloc, value, Key::ProfileTime, 32)?;
    Ok(Standing {
        home,
        app,
        roaming,
        carry_app,
        profile_time,
    })
}

/// The devices, of the desk, the networks and the applications above them.
#[derive(Drop)]
pub(crate) struct Devices<'a> {
    pub(crate) desk: &'a DeskRow,
    pub(crate) networks: &'a NamedRows<NetworkRow>,
    pub(crate) applications: &'a NamedRows<ApplicationRow>,
}

impl<'a> ReadRow for Devices<'a> {
    type Row = DeviceRow;

    ghost row_in = { λ s. device_in s.desk.now s.networks.now s.applications.now };

    #[tactic(auto, unfolding(crate::specs::Rows::device_in))]
    fn read_row(
        &self,
        alloc: Global,
        before: &NamedRows<DeviceRow>,
        value: &Value,
    ) -> Result<DeviceRow, Unread<Flaw>> {
        let Identity {
            dev_eui,
            join_eui,
            nwk_key,
            app_key,
        } = read_identity(&self.desk.join_euis, before, value)?;
        let Standing {
            home,
            app,
            roaming,
            carry_app,
            profile_time,
        } = read_standing(
            alloc,
            self.desk.net_id,
            self.networks,
            self.applications,
            value,
        )?;
        Ok(DeviceRow {
            dev_eui,
            join_eui,
            nwk_key,
            app_key,
            home,
            app,
            roaming,
            carry_app,
            profile_time,
        })
    }
}
