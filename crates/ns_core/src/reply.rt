ghost use Rattle.std.specs.Prelude.{◌≡◌, IfOk};
ghost use Rattle.js_core.specs.Replies.{refuses};

use backend_json::{Head, Refusal};
use js_core::{JsDecision, refused};
use wire_ids::{Decision, Memory};

/// A request that is refused.
pub(crate) fn refusal_decision<'a>(head: Head, refusal: Refusal) -> Result<JsDecision<'a>, Memory>
    ensures { IfOk result (λ d. d ≡ refuses head refusal) }
{
    Ok(Decision::Reply(refused(head, refusal)))
}
