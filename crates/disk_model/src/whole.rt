ghost use Rattle.std.specs.Prelude.{OnOk, OnErr};
ghost use Rattle.std.specs.Io.KnownBytes.{Appends};
ghost use Rattle.wire_ids.specs.Causes.{HasCause};
ghost use Rattle.disk_model.specs.Written.{AppendsFront};

use crate::{Failed, Sink};

/// Writes the whole piece. After a fault a front of it stands in the sink.
pub fn write_whole<O: Sink>(out: &mut O, piece: &[u8]) -> Result<(), Failed>
    ensures ok { OnOk result (Appends (O.written out.old) (O.written out.new) piece.now) }
    ensures err { OnErr result (AppendsFront (O.written out.old) (O.written out.new) piece.now) }
    ensures cause { HasCause (O.faults out.old) (O.faults out.new) result }
{
    let mut done = 0;
    while done < piece.len() {
        done += out.write(&piece[done..])?;
    }
    Ok(())
}
