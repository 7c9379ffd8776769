use crate::fault::{TablesFault, too_many};
use crate::section::document;
use crate::sections::{Sections, read_sections};
use crate::{
    AgreementRow, ApplicationRow, DeskRow, DeviceRow, GatewayRow, JoinServerRow, NetworkRow, Unread,
};
use std::alloc::Global;
use std::marker::Model;
use wire_ids::{Eui, Memory, NetId, RootKeys};

/// What a valid tables text says. Contracts see it as the record `Config`: the desk's row and the
/// list of the rows of each other section.
#[derive(Drop)]
pub struct Tables {
    sections: Sections,
}

impl Model for Tables {
    ghost use Rattle.agreements.specs.Sound.{IsSound};
    ghost use Rattle.agreements.specs.Walk.{Config};

    ghost Value = { Config };

    ghost view = { λ t. t.sections };

    ghost invariant = { λ t. IsSound t.sections };
}

ghost use Rattle.std.specs.Borrow.{Bor};
ghost use Rattle.std.specs.Prelude.{◌≡◌, ◌<◌, ◌≤◌, All, length, option_map, map, IfOk, IfSome};
ghost use Rattle.std.specs.Prelude.{MatchOption, None, Some, slice_get};
ghost use Rattle.agreements.specs.Rows.{has_gateway};
ghost use Rattle.agreements.specs.LookUps.{AreFound, Belongs, agreement_row, application_row};
ghost use Rattle.agreements.specs.LookUps.{device_place, join_server_row, keys_of, network_row};
ghost use Rattle.agreements.specs.Sound.{IsSound};
ghost use Rattle.agreements.specs.Steps.{Gives};
ghost use Rattle.agreements.specs.Walk.{tables_of};
ghost use Rattle.agreements.specs.declared.rows.AgreementRow as agreements_row;
ghost use Rattle.agreements.specs.declared.rows.ApplicationRow as applications_row;
ghost use Rattle.agreements.specs.declared.rows.JoinServerRow as join_servers_row;
ghost use Rattle.agreements.specs.declared.rows.NetworkRow as networks_row;

/// The tables of a TOML text of at most 4,194,304 bytes, or the first fault of the walk through it:
/// the text's length, the document, then the sections `desk`, `network`, `agreement`,
/// `join_server`, `application`, `gateway` and `device`; in a section its count, then its rows; in
/// a row each key in order, tried for `Missing`, `BadValue`, `Twice` and `NoSuch`. Unknown keys are
/// unread.
#[tactic(auto, unfolding(crate::specs::Walk::tables_of))]
pub fn read_tables(alloc: Global, text: &[u8]) -> Result<Tables, Unread<TablesFault>>
    ensures { Gives result (tables_of text.now) }
{
    if text.len() > 4194304 {
        return Err(too_many(alloc, "text", 4194304));
    }
    let doc = document(alloc, text)?;
    let sections = read_sections(alloc, &doc)?;
    Ok(Tables { sections })
}

impl Tables {
    /// The desk's own row.
    pub fn desk(&self) -> &DeskRow
        ensures { result.now ≡ self.now.desk }
    {
        &self.sections.desk
    }

    /// The networks, in table order.
    pub fn networks(&self) -> &[NetworkRow]
        ensures { result.now ≡ self.now.networks }
    {
        self.sections.networks.as_slice()
    }

    /// The agreements, in table order.
    pub fn agreements(&self) -> &[AgreementRow]
        ensures { result.now ≡ self.now.agreements }
    {
        self.sections.agreements.as_slice()
    }

    /// The other join servers, in table order.
    pub fn join_servers(&self) -> &[JoinServerRow]
        ensures { result.now ≡ self.now.join_servers }
    {
        self.sections.join_servers.as_slice()
    }

    /// The applications, in table order.
    pub fn applications(&self) -> &[ApplicationRow]
        ensures { result.now ≡ self.now.applications }
    {
        self.sections.applications.as_slice()
    }

    /// The gateways, in table order.
    pub fn gateways(&self) -> &[GatewayRow]
        ensures { result.now ≡ self.now.gateways }
    {
        self.sections.gateways.as_slice()
    }

    /// The devices, in table order: at most 4,096, no DevEUI twice, each at home in the desk's
    /// network or in one of the networks, and each with one of the applications.
    pub fn devices(&self) -> &[DeviceRow]
        ensures rows { result.now ≡ self.now.devices }
        ensures few { length self.now.devices ≤ 4096 }
        ensures places { AreFound self.now.devices }
        ensures belong { All (Belongs self.now.desk.net_id self.now.networks self.now.applications)
            self.now.devices }
        ensures sound { IsSound self.now }
    {
        self.sections.devices.as_slice()
    }

    /// The device's row and the row's number, or None exactly where no row has the DevEUI. The time
    /// is logarithmic in the number of devices.
    pub fn device(&self, dev: Eui) -> Option<(u32, &DeviceRow)>
        ensures row { MatchOption result (device_place dev self.now.devices ≡ None)
            (λ p. (device_place dev self.now.devices ≡ Some p.0)
            × (slice_get self.now.devices p.0 ≡ Some p.1.now)) }
        ensures place { IfSome result (λ p. p.0 < length self.now.devices) }
    {
        self.sections.devices.find(dev.0)
    }

    /// The network's row, or None exactly where no row has the NetID.
    pub fn network(&self, net: NetId) -> Option<&NetworkRow>
        ensures { option_map (λ (r : Bor networks_row.NetworkRow). r.now) result
            ≡ network_row net self.now.networks }
    {
        self.sections.networks.row(u64::from(net.get()))
    }

    /// The agreement with the network, or None exactly where no agreement has the NetID.
    pub fn agreement(&self, net: NetId) -> Option<&AgreementRow>
        ensures { option_map (λ (r : Bor agreements_row.AgreementRow). r.now) result
            ≡ agreement_row net self.now.agreements }
    {
        self.sections.agreements.row(u64::from(net.get()))
    }

    /// The other join server's row, or None exactly where no row has the JoinEUI.
    pub fn join_server(&self, id: Eui) -> Option<&JoinServerRow>
        ensures { option_map (λ (r : Bor join_servers_row.JoinServerRow). r.now) result
            ≡ join_server_row id self.now.join_servers }
    {
        self.sections.join_servers.row(id.0)
    }

    /// The application's row, or None exactly where no row has the name.
    pub fn application(&self, id: Eui) -> Option<&ApplicationRow>
        ensures { option_map (λ (r : Bor applications_row.ApplicationRow). r.now) result
            ≡ application_row id self.now.applications }
    {
        self.sections.applications.row(id.0)
    }

    /// Whether a gateway has this name.
    pub fn gateway(&self, id: Eui) -> bool
        ensures { result ≡ has_gateway id self.now.gateways }
    {
        self.sections.gateways.contains(id.0)
    }

    /// The devices' root keys, in table order. The one error is want of memory.
    pub fn root_keys(&self, alloc: Global) -> Result<Vec<RootKeys>, Memory>
        ensures { IfOk result (λ v. v.items ≡ map keys_of self.now.devices) }
    {
        let keys = self.sections.devices.as_slice().iter().map(|r| RootKeys {
            nwk: r.nwk_key,
            app: r.app_key,
        });
        Ok(keys.collect(alloc)?)
    }
}

fn is_send<T: Send>() {}

// That tables may be handed to another thread.
fn tables_are_send() {
    is_send::<Tables>()
}
