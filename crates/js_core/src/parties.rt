//! Who may send a request, and to whom.

ghost use Rattle.std.specs.Prelude.{◌≡◌};
ghost use Rattle.js_core.specs.Parties.{is_app, is_known, is_net, may_send, reaches};

use agreements::Tables;
use backend_json::{ReceiverKind, SenderKind};
use wire_ids::{Eui, NetId, PeerId, Sender};

/// Whether the sender has a row: a network, or an application or a gateway.
#[tactic(auto, unfolding(crate::specs::Parties::is_known))]
pub fn is_known(tables: &Tables, sender: Sender) -> bool
    ensures { result ≡ is_known tables.now sender }
{
    match sender {
        Sender::Network(net) => tables.network(net).is_some(),
        Sender::Party(id) => tables.application(id).is_some() || tables.gateway(id),
    }
}

/// Whether the receiver is the desk, by a name of this kind.
#[tactic(auto, unfolding(crate::specs::Parties::reaches))]
pub fn reaches(tables: &Tables, kind: ReceiverKind, receiver: PeerId) -> bool
    ensures { result ≡ reaches tables.now kind receiver }
{
    match receiver {
        PeerId::Network(net) => match kind {
            ReceiverKind::JoinServer => false,
            ReceiverKind::NetworkServer | ReceiverKind::Any => {
                net.get() == tables.desk().net_id.get()
            }
        },
        PeerId::JoinServer(join_eui) => match kind {
            ReceiverKind::NetworkServer => false,
            ReceiverKind::JoinServer | ReceiverKind::Any => {
                tables.desk().join_euis.contains(join_eui)
            }
        },
    }
}

/// Whether the sender is of this kind.
#[tactic(auto, unfolding(crate::specs::Parties::may_send))]
pub fn may_send(tables: &Tables, kind: SenderKind, sender: Sender) -> bool
    ensures { result ≡ may_send tables.now kind sender }
{
    match kind {
        SenderKind::Network => match sender {
            Sender::Network(_) => true,
            Sender::Party(_) => false,
        },
        SenderKind::Application => match sender {
            Sender::Network(_) => false,
            Sender::Party(id) => tables.application(id).is_some(),
        },
        SenderKind::Gateway => match sender {
            Sender::Network(_) => false,
            Sender::Party(id) => tables.gateway(id),
        },
        SenderKind::Nobody => false,
    }
}

/// Whether the sender is the network of this NetID.
pub(crate) fn is_net(net: NetId, sender: Sender) -> bool
    ensures { result ≡ is_net net sender }
{
    match sender {
        Sender::Network(own) => own.get() == net.get(),
        Sender::Party(_) => false,
    }
}

/// Whether the sender is the application of this name.
pub fn is_app(app: Eui, sender: Sender) -> bool
    ensures { result ≡ is_app app sender }
{
    match sender {
        Sender::Network(_) => false,
        Sender::Party(id) => id.0 == app.0,
    }
}
