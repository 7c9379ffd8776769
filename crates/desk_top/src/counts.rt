ghost use Rattle.std.specs.Prelude.{◌≡◌, ◌≤◌, IfOk, IfErr, IsErrOf, string_bytes};
ghost use Rattle.wire_ids.specs.Causes.{Rose};
ghost use Rattle.desk_top.specs.Counting.{Counted};
ghost use Rattle.desk_top.specs.Faults.{IsOfPrinting};
ghost use Rattle.desk_top.specs.LastLines.{counts_line};

use crate::fault::Fault;
use agreements::Tables;
use disk_model::{Sink, write_whole};
use std::alloc::{AllocError, Global};

fn counts_text(alloc: Global, tables: &Tables) -> Result<String, AllocError>
    ensures { IfOk result (λ line. string_bytes line ≡ counts_line tables.now) }
{
    let devices = tables.devices().len();
    let networks = tables.networks().len();
    let applications = tables.applications().len();
    let gateways = tables.gateways().len();
    let agreements = tables.agreements().len();
    format!(in alloc;
        "tables ok: devices {devices} networks {networks} applications {applications} \
        gateways {gateways} agreements {agreements}\n"
    )
}

// Prints how many rows the tables have.
pub(crate) fn print_counts<O: Sink>(
    alloc: Global,
    tables: &Tables,
    out: &mut O,
) -> Result<(), Fault>
    ensures counted { Counted tables.now (O.written out.old) (O.written out.new) result }
    ensures write { IsErrOf result Fault.Write → Rose (O.faults out.old) (O.faults out.new) }
    ensures kind { IfErr result IsOfPrinting }
    ensures later { O.faults out.old ≤ O.faults out.new }
{
    let text = counts_text(alloc, tables)?;
    write_whole(out, text.as_bytes())?;
    Ok(())
}
