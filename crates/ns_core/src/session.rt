//! The session that a context began with.

ghost use Rattle.std.specs.Prelude.{◌≡◌};
ghost use Rattle.ns_core.specs.Sessions.{is_session, session_of};

use backend_json::SessionKeyId;
use contexts::Origin;
use wire_ids::Eui;

/// Its SessionKeyID, where it began with a join- or rejoin-request to this desk.
pub(crate) fn session_of(dev_eui: Eui, origin: &Origin) -> Option<SessionKeyId>
    ensures { result ≡ session_of dev_eui origin.now }
{
    match origin {
        Origin::Seeded(seed) => Some(SessionKeyId {
            dev_eui,
            join_nonce: seed.nonce,
        }),
        Origin::Given { .. } => None,
    }
}

/// Whether a context of this device began with this session.
pub(crate) fn is_session(id: &SessionKeyId, dev_eui: Eui, origin: &Origin) -> bool
    ensures { result ≡ is_session id.now dev_eui origin.now }
{
    match session_of(dev_eui, origin) {
        Some(own) => {
            id.dev_eui.0 == own.dev_eui.0 && id.join_nonce.get() == own.join_nonce.get()
        }
        None => false,
    }
}
