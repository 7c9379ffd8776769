ghost use Rattle.std.specs.Prelude.{◌≡◌, ◌⊎◌, ◌++◌, drop};
ghost use Rattle.join_frames.specs.Mics.{with_mic, HasMic};
ghost use Rattle.join_frames.specs.JoinForms.{JoinForm};
ghost use Rattle.join_frames.specs.JoinForms.{join_fields, rejoin02_fields, rejoin1_fields};
ghost use Rattle.join_frames.specs.declared.join_up.JoinUp.TheVariants as ups;
ghost use Rattle.key_vault.specs.Keys.{js_int_key};

use crate::mic::mic_of;
use key_vault::js_int_of;
use wire_ids::{Eui, NetId};

// The bytes of a join-request before its MIC.
fn join_fields(join_eui: Eui, dev: Eui, nonce: u16) -> [u8; 19]
    ensures { result ≡ join_fields join_eui dev nonce }
{
    let mut fields = [0; 19];
    fields[1..9].copy_from_slice(&join_eui.to_wire());
    fields[9..17].copy_from_slice(&dev.to_wire());
    fields[17..].copy_from_slice(&nonce.to_le_bytes());
    fields
}

/// The join-request of a device, with its MIC (LoRaWAN 1.1, 6.2.2).
pub fn join_bytes(nwk_key: &[u8; 16], join_eui: Eui, dev: Eui, nonce: u16) -> [u8; 23]
    ensures value { result ≡ with_mic nwk_key.now (join_fields join_eui dev nonce) }
    ensures valid { HasMic nwk_key.now result }
    ensures form { JoinForm result (ups.Join join_eui dev nonce (drop 19 result)) }
{
    let fields = join_fields(join_eui, dev, nonce);
    let mut frame = [0; 23];
    frame[..19].copy_from_slice(&fields);
    frame[19..].copy_from_slice(&mic_of(nwk_key, &fields));
    frame
}

// The bytes of a rejoin-request of type 0 or 2 before its MIC.
fn rejoin02_fields(kind: u8, net: NetId, dev: Eui, count: u16) -> [u8; 15]
    ensures { result ≡ rejoin02_fields kind net dev count }
{
    let mut fields = [0; 15];
    fields[0] = 0xc0;
    fields[1] = kind;
    fields[2..5].copy_from_slice(&net.to_wire());
    fields[5..13].copy_from_slice(&dev.to_wire());
    fields[13..].copy_from_slice(&count.to_le_bytes());
    fields
}

/// The rejoin-request of a device of type `kind`, 0 or 2, with its MIC under SNwkSIntKey
/// (LoRaWAN 1.1, 6.2.4.1).
pub fn rejoin02_bytes(s_key: &[u8; 16], kind: u8, net: NetId, dev: Eui, count: u16) -> [u8; 19]
    requires { (kind ≡ 0) ⊎ (kind ≡ 2) }
    ensures value { result ≡ with_mic s_key.now (rejoin02_fields kind net dev count) }
    ensures valid { HasMic s_key.now result }
    ensures form { JoinForm result (ups.Rejoin02 kind net dev count (drop 15 result)) }
{
    let fields = rejoin02_fields(kind, net, dev, count);
    let mut frame = [0; 19];
    frame[..15].copy_from_slice(&fields);
    frame[15..].copy_from_slice(&mic_of(s_key, &fields));
    frame
}

// The bytes of a rejoin-request of type 1 before its MIC.
fn rejoin1_fields(join_eui: Eui, dev: Eui, count: u16) -> [u8; 20]
    ensures { result ≡ rejoin1_fields join_eui dev count }
{
    let mut fields = [0; 20];
    fields[0] = 0xc0;
    fields[1] = 1;
    fields[2..10].copy_from_slice(&join_eui.to_wire());
    fields[10..18].copy_from_slice(&dev.to_wire());
    fields[18..].copy_from_slice(&count.to_le_bytes());
    fields
}

/// The rejoin-request of a device of type 1, with its MIC under JSIntKey (LoRaWAN 1.1, 6.2.4.2).
pub fn rejoin1_bytes(nwk_key: &[u8; 16], join_eui: Eui, dev: Eui, count: u16) -> [u8; 24]
    ensures value { result
        ≡ with_mic (js_int_key nwk_key.now dev.0) (rejoin1_fields join_eui dev count) }
    ensures valid { HasMic (js_int_key nwk_key.now dev.0) result }
    ensures form { JoinForm result (ups.Rejoin1 join_eui dev count (drop 20 result)) }
{
    let fields = rejoin1_fields(join_eui, dev, count);
    let mut frame = [0; 24];
    frame[..20].copy_from_slice(&fields);
    frame[20..].copy_from_slice(&mic_of(&js_int_of(nwk_key, dev), &fields));
    frame
}
