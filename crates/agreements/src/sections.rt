ghost use Rattle.toml.specs.View.{table_view};
ghost use Rattle.agreements.specs.Steps.{Gives};
ghost use Rattle.agreements.specs.Walk.{parties_in, tables_in};

use crate::agreement::Agreements;
use crate::application::Applications;
use crate::device::Devices;
use crate::fault::TablesFault;
use crate::gateway::Gateways;
use crate::join_server::JoinServers;
use crate::network::Networks;
use crate::section::{desk, rows};
use crate::{
    AgreementRow, ApplicationRow, DeskRow, DeviceRow, GatewayRow, JoinServerRow, NamedRows,
    NetworkRow, Unread,
};
use std::alloc::Global;
use toml::Table;

/// The sections of a tables text.
#[derive(Drop)]
pub(crate) struct Sections {
    pub(crate) desk: DeskRow,
    pub(crate) networks: NamedRows<NetworkRow>,
    pub(crate) agreements: NamedRows<AgreementRow>,
    pub(crate) join_servers: NamedRows<JoinServerRow>,
    pub(crate) applications: NamedRows<ApplicationRow>,
    pub(crate) gateways: NamedRows<GatewayRow>,
    pub(crate) devices: NamedRows<DeviceRow>,
}

// The last three sections, and with them all.
#[tactic(auto, unfolding(crate::specs::Walk::parties_in))]
fn parties_in(
    alloc: Global,
    desk: DeskRow,
    networks: NamedRows<NetworkRow>,
    agreements: NamedRows<AgreementRow>,
    join_servers: NamedRows<JoinServerRow>,
    doc: &Table,
) -> Result<Sections, Unread<TablesFault>>
    ensures { Gives result
        (parties_in desk networks agreements join_servers (table_view doc.now)) }
{
    let beside = Applications {
        join_euis: &desk.join_euis,
        join_servers: &join_servers,
        networks: &networks,
    };
    let applications = rows(alloc, doc, "application", 32, beside)?;
    let beside = Gateways {
        join_euis: &desk.join_euis,
        join_servers: &join_servers,
        applications: &applications,
    };
    let gateways = rows(alloc, doc, "gateway", 64, beside)?;
    let beside = Devices {
        desk: &desk,
        networks: &networks,
        applications: &applications,
    };
    let devices = rows(alloc, doc, "device", 4096, beside)?;
    Ok(Sections {
        desk,
        networks,
        agreements,
        join_servers,
        applications,
        gateways,
        devices,
    })
}

/// The sections of a document, in the order of the walk.
#[tactic(auto, unfolding(crate::specs::Walk::tables_in))]
pub(crate) fn read_sections(alloc: Global, doc: &Table) -> Result<Sections, Unread<TablesFault>>
    ensures { Gives result (tables_in (table_view doc.now)) }
{
    let desk = desk(alloc, doc)?;
    let beside = Networks { desk: desk.net_id };
    let networks = rows(alloc, doc, "network", 32, beside)?;
    let beside = Agreements {
        networks: &networks,
    };
    let agreements = rows(alloc, doc, "agreement", 32, beside)?;
    let beside = JoinServers {
        join_euis: &desk.join_euis,
    };
    let join_servers = rows(alloc, doc, "join_server", 32, beside)?;
    parties_in(alloc, desk, networks, agreements, join_servers, doc)
}
