ghost use Rattle.std.specs.Prelude.{◌≡◌, ◌<◌, Some, length};
ghost use Rattle.entitlement.specs.Roles.{is_granted, is_lent, network_role, party_role, role_of};

use agreements::{DeviceRow, Tables};
use wire_ids::{Eui, Moment, NetId, Sender};

/// What the receiver of an answer is to a device, so far as keys go.
#[derive(Clone, Copy, Debug, PartialEq, Eq)]
pub enum Role {
    /// The network that the device is at home in.
    Home,
    /// A network that the device is lent to.
    Serving,
    /// A network that was granted a passive session of the device.
    Forwarding,
    /// The application that the device belongs to.
    Application,
    Stranger,
}

/// Which answer is asked for.
#[derive(Clone, Copy, Debug, PartialEq, Eq)]
pub enum AnswerKind {
    JoinAns,
    RejoinAns,
    HRStartAns,
    PRStartAns,
    AppSKeyAns,
    /// An answer that never carries a key.
    OtherAns,
}

/// What the desk's state says of a device and the receiver of an answer.
#[derive(Clone, Copy, Debug, PartialEq, Eq)]
pub struct Facts {
    /// To which network the device is lent, and until when.
    pub lent: Option<(NetId, Moment)>,
    /// Until when the receiver's passive session of the device was granted.
    pub granted: Option<Moment>,
    /// The moment of the answer. What ends at it has ended.
    pub now: Moment,
}

impl Facts {
    fn is_lent_to(self, net: NetId) -> bool
        ensures { result ≡ is_lent net self.lent self.now }
    {
        match self.lent {
            Some((to, until)) => to.get() == net.get() && until.0 > self.now.0,
            None => false,
        }
    }

    fn is_granted(self) -> bool
        ensures { result ≡ is_granted self.granted self.now }
    {
        match self.granted {
            Some(until) => until.0 > self.now.0,
            None => false,
        }
    }
}

fn network_role(row: &DeviceRow, facts: &Facts, net: NetId, asked: AnswerKind) -> Role
    ensures { result ≡ network_role row.now facts.entry.now net asked }
{
    match asked {
        AnswerKind::JoinAns | AnswerKind::RejoinAns if row.home.get() == net.get() => Role::Home,
        AnswerKind::HRStartAns if facts.is_lent_to(net) => Role::Serving,
        AnswerKind::PRStartAns if facts.is_granted() => Role::Forwarding,
        _ => Role::Stranger,
    }
}

fn party_role(row: &DeviceRow, id: Eui, asked: AnswerKind) -> Role
    ensures { result ≡ party_role row.now id asked }
{
    match asked {
        AnswerKind::AppSKeyAns if row.app.0 == id.0 => Role::Application,
        _ => Role::Stranger,
    }
}

/// What the sender of a request is to the device of this number, for the answer that it asks for.
/// The facts are those of the state that the answer's own entry leaves, of this device and this
/// sender.
pub fn role_of(
    tables: &Tables,
    facts: &Facts,
    device: u32,
    sender: Sender,
    asked: AnswerKind,
) -> Role
    requires { device < length tables.now.devices }
    ensures { role_of tables.now facts.entry.now device sender asked ≡ Some result }
{
    let row = &tables.devices()[device as usize];
    match sender {
        Sender::Network(net) => network_role(row, facts, net, asked),
        Sender::Party(id) => party_role(row, id, asked),
    }
}
