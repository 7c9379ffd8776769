ghost use Rattle.roam_core.specs.Agreement.{AgreeOver};

use crate::laws::{kept_agree, lines_agree};
use agreements::Tables;

/// Over these tables the answer to each line, in every state, agrees with the entitlement table in
/// the state that its own entry leaves, and over every legal history a kept answer did so when its
/// entry was made.
pub fn answers_agree(tables: &Tables)
    ensures { AgreeOver tables.now }
{
    tables.devices();
    lines_agree();
    kept_agree();
}
