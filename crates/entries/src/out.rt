ghost use Rattle.std.specs.Prelude.{◌≡◌, ◌<◌, ◌^◌, ◌++◌, OnOk};
ghost use Rattle.wire_ids.specs.Forms.{u8 as byte, u16 as two, u24 as three, u32 as four};
ghost use Rattle.wire_ids.specs.Forms.{u64 as eight, exactly, flag, long, short};

use wire_ids::{LongText, Memory, NetId, Nonce24, ShortText};

pub(crate) fn put(out: &mut Vec<u8>, bytes: &[u8]) -> Result<(), Memory>
    ensures { OnOk result (out.new.items ≡ out.old.items ++ bytes.now) }
{
    Ok(out.extend_from_slice(bytes)?)
}

#[tactic(auto, unfolding(wire_ids::specs::Forms::u8))]
pub(crate) fn put_u8(out: &mut Vec<u8>, value: u8) -> Result<(), Memory>
    ensures spelled { OnOk result (out.new.items ≡ out.old.items ++ byte.spell value) }
    ensures fits { byte.Fits value }
{
    put(out, &[value])
}

#[tactic(auto, unfolding(wire_ids::specs::Forms::u16))]
pub(crate) fn put_u16(out: &mut Vec<u8>, value: u16) -> Result<(), Memory>
    ensures spelled { OnOk result (out.new.items ≡ out.old.items ++ two.spell value) }
    ensures fits { two.Fits value }
{
    put(out, &value.to_be_bytes())
}

#[tactic(auto, unfolding(wire_ids::specs::Forms::u32))]
pub(crate) fn put_u32(out: &mut Vec<u8>, value: u32) -> Result<(), Memory>
    ensures spelled { OnOk result (out.new.items ≡ out.old.items ++ four.spell value) }
    ensures fits { four.Fits value }
{
    put(out, &value.to_be_bytes())
}

#[tactic(auto, unfolding(wire_ids::specs::Forms::u64))]
pub(crate) fn put_u64(out: &mut Vec<u8>, value: u64) -> Result<(), Memory>
    ensures spelled { OnOk result (out.new.items ≡ out.old.items ++ eight.spell value) }
    ensures fits { eight.Fits value }
{
    put(out, &value.to_be_bytes())
}

#[tactic(auto, unfolding(wire_ids::specs::Forms::u24))]
fn put_u24(out: &mut Vec<u8>, n: u32) -> Result<(), Memory>
    requires { n < 2 ^ 24 }
    ensures spelled { OnOk result (out.new.items ≡ out.old.items ++ three.spell n) }
    ensures fits { three.Fits n }
{
    put(
        out,
        &[
            (n / 0x1_0000) as u8,
            (n / 0x100 % 0x100) as u8,
            (n % 0x100) as u8,
        ],
    )
}

#[tactic(auto, unfolding(wire_ids::specs::Forms::u24))]
pub(crate) fn put_net(out: &mut Vec<u8>, value: NetId) -> Result<(), Memory>
    ensures spelled { OnOk result (out.new.items ≡ out.old.items ++ three.spell value) }
    ensures fits { three.Fits value }
{
    put_u24(out, value.get())
}

#[tactic(auto, unfolding(wire_ids::specs::Forms::u24))]
pub(crate) fn put_join_nonce(out: &mut Vec<u8>, value: Nonce24) -> Result<(), Memory>
    ensures spelled { OnOk result (out.new.items ≡ out.old.items ++ three.spell value) }
    ensures fits { three.Fits value }
{
    put_u24(out, value.get())
}

#[tactic(auto, unfolding(wire_ids::specs::Forms::flag, wire_ids::specs::Forms::sum))]
pub(crate) fn put_flag(out: &mut Vec<u8>, value: bool) -> Result<(), Memory>
    ensures spelled { OnOk result (out.new.items ≡ out.old.items ++ flag.spell value) }
    ensures fits { flag.Fits value }
{
    put(out, &[u8::from(value)])
}

#[tactic(auto, unfolding(wire_ids::specs::Forms::exactly))]
pub(crate) fn put_sixteen(out: &mut Vec<u8>, value: &[u8; 16]) -> Result<(), Memory>
    ensures spelled { OnOk result (out.new.items ≡ out.old.items ++ (exactly 16).spell value.now) }
    ensures fits { (exactly 16).Fits value.now }
{
    put(out, value)
}

#[tactic(auto, unfolding(wire_ids::specs::Forms::short), using(std::proofs::Common::append_assoc))]
pub(crate) fn put_short(out: &mut Vec<u8>, value: &ShortText) -> Result<(), Memory>
    ensures spelled { OnOk result (out.new.items ≡ out.old.items ++ short.spell value.now) }
    ensures fits { short.Fits value.now }
{
    put_u16(out, value.len() as u16)?;
    put(out, value.as_slice())
}

#[tactic(auto, unfolding(wire_ids::specs::Forms::long), using(std::proofs::Common::append_assoc))]
pub(crate) fn put_long(out: &mut Vec<u8>, value: &LongText) -> Result<(), Memory>
    ensures spelled { OnOk result (out.new.items ≡ out.old.items ++ long.spell value.now) }
    ensures fits { long.Fits value.now }
{
    put_u32(out, value.len() as u32)?;
    put(out, value.as_slice())
}
