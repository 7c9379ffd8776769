ghost use Rattle.agreements.specs.Rows.{join_server_in};

use crate::flaw::{Flaw, once};
use crate::form::{need, text};
use crate::key::Key;
use crate::reading::ReadRow;
use crate::{EuiList, JoinServerRow, Named, NamedRows, Unread};
use std::alloc::Global;
use toml::Value;
use wire_ids::Eui;

impl Named for JoinServerRow {
    ghost name = { λ r. r.join_eui.0 };

    fn name(&self) -> u64 {
        self.join_eui.0
    }
}

/// The other join servers, beside the desk of these names.
#[derive(Drop)]
pub(crate) struct JoinServers<'a> {
    pub(crate) join_euis: &'a EuiList,
}

impl<'a> ReadRow for JoinServers<'a> {
    type Row = JoinServerRow;

    ghost row_in = { λ s. join_server_in s.join_euis.now };

    #[tactic(auto, unfolding(crate::specs::Rows::join_server_in))]
    fn read_row(
        &self,
        alloc: Global,
        before: &NamedRows<JoinServerRow>,
        value: &Value,
    ) -> Result<JoinServerRow, Unread<Flaw>> {
        let join_eui: Eui = need(value, Key::JoinEui)?;
        let taken = self.join_euis.contains(join_eui) || before.contains(join_eui.0);
        once(Key::JoinEui, taken)?;
        let address = text(alloc, value, Key::Address, 1, 64)?;
        Ok(JoinServerRow { join_eui, address })
    }
}
