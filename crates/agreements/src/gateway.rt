ghost use Rattle.agreements.specs.Rows.{gateway_in};

use crate::flaw::{Flaw, once};
use crate::form::need;
use crate::key::Key;
use crate::reading::ReadRow;
use crate::{ApplicationRow, EuiList, GatewayRow, JoinServerRow, Named, NamedRows, Unread};
use std::alloc::Global;
use toml::Value;
use wire_ids::Eui;

impl Named for GatewayRow {
    ghost name = { λ r. r.gateway_id.0 };

    fn name(&self) -> u64 {
        self.gateway_id.0
    }
}

/// The gateways, beside the desk of these names and the parties above them.
#[derive(Drop)]
pub(crate) struct Gateways<'a> {
    pub(crate) join_euis: &'a EuiList,
    pub(crate) join_servers: &'a NamedRows<JoinServerRow>,
    pub(crate) applications: &'a NamedRows<ApplicationRow>,
}

impl<'a> ReadRow for Gateways<'a> {
    type Row = GatewayRow;

    ghost row_in = { λ s.
        gateway_in s.join_euis.now s.join_servers.now s.applications.now };

    #[tactic(auto, unfolding(crate::specs::Rows::gateway_in))]
    fn read_row(
        &self,
        _: Global,
        before: &NamedRows<GatewayRow>,
        value: &Value,
    ) -> Result<GatewayRow, Unread<Flaw>> {
        let gateway_id: Eui = need(value, Key::GatewayId)?;
        let foreign = self.join_euis.contains(gateway_id)
            || self.join_servers.contains(gateway_id.0);
        let own = self.applications.contains(gateway_id.0) || before.contains(gateway_id.0);
        once(Key::GatewayId, foreign || own)?;
        Ok(GatewayRow { gateway_id })
    }
}
