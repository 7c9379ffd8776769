ghost use Rattle.std.specs.Prelude.{◌≡◌, ◌<◌, ◌^◌, ℕ, Some, slice_get};
ghost use Rattle.agreements.specs.declared.rows.NetworkRow as network_row;
ghost use Rattle.entry_codec.specs.Empty.{empty};
ghost use Rattle.roam_core.specs.Entering.{KnowsSenders};

use agreements::{NetworkRow, Tables};

// A NetID has 24 bits.
fn have_net_ids(rows: &[NetworkRow])
    ensures { (k : ℕ) (r : network_row.NetworkRow) → slice_get rows.now k ≡ Some r
        → r.net_id < 2 ^ 24 }
{
    for row in rows {
        let _ = row.net_id.get();
    }
}

/// Each sender that has a row in the tables is one of their first state's, and of each one that
/// entries make of it.
pub fn knows_senders(tables: &Tables)
    ensures { KnowsSenders tables.now (empty tables.now) }
{
    have_net_ids(tables.networks());
}
