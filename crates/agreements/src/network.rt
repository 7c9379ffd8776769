ghost use Rattle.std.specs.Prelude.{◌≡◌};
ghost use Rattle.agreements.specs.Rows.{has_network, labels_a_network, network_in};

use crate::flaw::{Flaw, once};
use crate::form::{need, text};
use crate::key::Key;
use crate::reading::ReadRow;
use crate::{Named, NamedRows, NetworkRow, Unread};
use std::alloc::Global;
use toml::Value;
use wire_ids::NetId;

impl Named for NetworkRow {
    ghost name = { λ r. r.net_id };

    fn name(&self) -> u64 {
        u64::from(self.net_id.get())
    }
}

pub(crate) fn has_network(rows: &NamedRows<NetworkRow>, net: NetId) -> bool
    ensures { result ≡ has_network net rows.now }
{
    rows.contains(u64::from(net.get()))
}

pub(crate) fn labels_a_network(rows: &NamedRows<NetworkRow>, label: &[u8]) -> bool
    ensures { result ≡ labels_a_network label.now rows.now }
{
    rows.as_slice()
        .iter()
        .any(|r| r.kek_label.as_slice() == label)
}

/// The networks, beside the desk of this NetID.
#[derive(Drop)]
pub(crate) struct Networks {
    pub(crate) desk: NetId,
}

impl ReadRow for Networks {
    type Row = NetworkRow;

    ghost row_in = { λ s. network_in s.desk };

    #[tactic(auto, unfolding(crate::specs::Rows::network_in))]
    fn read_row(
        &self,
        alloc: Global,
        before: &NamedRows<NetworkRow>,
        value: &Value,
    ) -> Result<NetworkRow, Unread<Flaw>> {
        let net_id: NetId = need(value, Key::NetId)?;
        let taken = self.desk.get() == net_id.get() || has_network(before, net_id);
        once(Key::NetId, taken)?;
        let kek_label = text(alloc, value, Key::KekLabel, 1, 32)?;
        once(
            Key::KekLabel,
            labels_a_network(before, kek_label.as_slice()),
        )?;
        let kek = need(value, Key::Kek)?;
        let address = text(alloc, value, Key::Address, 1, 64)?;
        Ok(NetworkRow {
            net_id,
            kek_label,
            kek,
            address,
        })
    }
}
