ghost use Rattle.std.specs.Prelude.{◌≡◌};
ghost use Rattle.entitlement.specs.Keys.{entitled, entries_of};

use crate::{AnswerKind, Role};

/// Which session keys an answer carries (LoRaWAN 1.1, 6.1.2.2 to 6.1.2.5): FNwkSIntKey, SNwkSIntKey
/// and NwkSEncKey under the label of the network that asked, and AppSKey under its application's
/// label.
#[derive(Clone, Copy, Debug, PartialEq, Eq)]
pub struct KeySet {
    pub f: bool,
    pub s: bool,
    pub e: bool,
    pub app: bool,
}

impl KeySet {
    // The network's three keys, or none of them.
    fn network(all: bool, app: bool) -> KeySet
        ensures { result ≡ record { f = all; s = all; e = all; app = app } }
    {
        KeySet {
            f: all,
            s: all,
            e: all,
            app,
        }
    }
}

/// The keys that a successful answer carries to a receiver of this role. `carry_app` is the device
/// row's, and `lifetime` is the answer's Lifetime in seconds.
pub fn keys_for(asked: AnswerKind, role: Role, carry_app: bool, lifetime: u32) -> KeySet
    ensures { entries_of result ≡ entitled asked role carry_app lifetime }
{
    match (role, asked) {
        (Role::Home, AnswerKind::JoinAns | AnswerKind::RejoinAns) => {
            KeySet::network(true, carry_app)
        }
        (Role::Serving, AnswerKind::HRStartAns) => KeySet::network(true, false),
        (Role::Forwarding, AnswerKind::PRStartAns) => KeySet {
            f: lifetime > 0,
            s: false,
            e: false,
            app: false,
        },
        (Role::Application, AnswerKind::AppSKeyAns) => KeySet::network(false, true),
        _ => KeySet::network(false, false),
    }
}
