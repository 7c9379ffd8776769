ghost use Rattle.std.specs.Prelude.{◌≡◌};
ghost use Rattle.agreements.specs.Rows.{agreement_in, has_agreement};

use crate::flaw::{Flaw, known, once};
use crate::form::{need, number_or};
use crate::key::Key;
use crate::network::has_network;
use crate::reading::ReadRow;
use crate::{AgreementRow, Named, NamedRows, NetworkRow, Unread};
use std::alloc::Global;
use toml::Value;
use wire_ids::NetId;

impl Named for AgreementRow {
    ghost name = { λ r. r.net_id };

    fn name(&self) -> u64 {
        u64::from(self.net_id.get())
    }
}

fn has_agreement(rows: &NamedRows<AgreementRow>, net: NetId) -> bool
    ensures { result ≡ has_agreement net rows.now }
{
    rows.contains(u64::from(net.get()))
}

/// The agreements with these networks.
#[derive(Drop)]
pub(crate) struct Agreements<'a> {
    pub(crate) networks: &'a NamedRows<NetworkRow>,
}

impl<'a> ReadRow for Agreements<'a> {
    type Row = AgreementRow;

    ghost row_in = { λ s. agreement_in s.networks.now };

    #[tactic(auto, unfolding(crate::specs::Rows::agreement_in))]
    fn read_row(
        &self,
        _: Global,
        before: &NamedRows<AgreementRow>,
        value: &Value,
    ) -> Result<AgreementRow, Unread<Flaw>> {
        let net_id: NetId = need(value, Key::NetId)?;
        once(Key::NetId, has_agreement(before, net_id))?;
        known(Key::NetId, has_network(self.networks, net_id))?;
        let passive = need(value, Key::Passive)?;
        let passive_s = number_or(value, Key::PassiveS, 1, 1 << 31, 600)?;
        let handover = need(value, Key::Handover)?;
        let handover_s = number_or(value, Key::HandoverS, 1, 1 << 31, 3600)?;
        let activation = need(value, Key::Activation)?;
        Ok(AgreementRow {
            net_id,
            passive,
            passive_s,
            handover,
            handover_s,
            activation,
        })
    }
}
