ghost use Rattle.std.specs.Prelude.{◌≡◌};
ghost use Rattle.agreements.specs.Rows.{application_in, labels_an_application};

use crate::flaw::{Flaw, once};
use crate::form::{need, text};
use crate::key::Key;
use crate::network::labels_a_network;
use crate::reading::ReadRow;
use crate::{ApplicationRow, EuiList, JoinServerRow, Named, NamedRows, NetworkRow, Unread};
use std::alloc::Global;
use toml::Value;
use wire_ids::Eui;

impl Named for ApplicationRow {
    ghost name = { λ r. r.app_id.0 };

    fn name(&self) -> u64 {
        self.app_id.0
    }
}

fn labels_an_application(rows: &NamedRows<ApplicationRow>, label: &[u8]) -> bool
    ensures { result ≡ labels_an_application label.now rows.now }
{
    rows.as_slice()
        .iter()
        .any(|r| r.kek_label.as_slice() == label)
}

/// The applications, beside the desk of these names and the parties above them.
#[derive(Drop)]
pub(crate) struct Applications<'a> {
    pub(crate) join_euis: &'a EuiList,
    pub(crate) join_servers: &'a NamedRows<JoinServerRow>,
    pub(crate) networks: &'a NamedRows<NetworkRow>,
}

impl<'a> ReadRow for Applications<'a> {
    type Row = ApplicationRow;

    ghost row_in = { λ s.
        application_in s.join_euis.now s.join_servers.now s.networks.now };

    #[tactic(auto, unfolding(crate::specs::Rows::application_in))]
    fn read_row(
        &self,
        alloc: Global,
        before: &NamedRows<ApplicationRow>,
        value: &Value,
    ) -> Result<ApplicationRow, Unread<Flaw>> {
        let app_id: Eui = need(value, Key::AppId)?;
        let taken = self.join_euis.contains(app_id)
            || self.join_servers.contains(app_id.0)
            || before.contains(app_id.0);
        once(Key::AppId, taken)?;
        let kek_label = text(alloc, value, Key::KekLabel, 1, 32)?;
        let labelled = labels_a_network(self.networks, kek_label.as_slice())
            || labels_an_application(before, kek_label.as_slice());
        once(Key::KekLabel, labelled)?;
        let kek = need(value, Key::Kek)?;
        Ok(ApplicationRow {
            app_id,
            kek_label,
            kek,
        })
    }
}
