ghost use Rattle.std.specs.Prelude.{◌≡◌, ◌↔◌, ◌++◌, take, drop, List, ℕ};
ghost use Rattle.std.specs.Prelude.{IsTrue, IfSome, None, Some};
ghost use Rattle.key_vault.specs.Table.{accept_key};
ghost use Rattle.join_frames.specs.Accepts.{accept_mic, accept_text, fixed_fields, is_rejoin};
ghost use Rattle.join_frames.specs.Accepts.{HasRanges, AnswersRequest};
ghost use Rattle.join_frames.specs.declared.accept.Accept.{Accept};

use crate::accept::{Accept, AcceptKind};
use crate::pieces::array_at;
use crate::sealing::{self, joined};
use aes_cmac::{RoundKeys, same_bytes};
use key_vault::{js_enc_of, js_int_of};
use wire_ids::{DevAddr, Eui, NetId, Nonce24, Radio, Seed};

// The key that sealed the accept: NwkKey, or JSEncKey after a rejoin-request.
#[tactic(auto, unfolding(key_vault::specs::Table::accept_key))]
fn accept_key(nwk: &[u8; 16], dev: Eui, kind: AcceptKind) -> RoundKeys
    ensures { result ≡ accept_key nwk.now dev.0 (is_rejoin kind) }
{
    if kind.is_rejoin() {
        RoundKeys::new(&js_enc_of(nwk, dev))
    } else {
        RoundKeys::new(nwk)
    }
}

// The accept whose fields begin this block, with this CFList, for a request.
fn accept_of(
    kind: AcceptKind,
    dev: Eui,
    join_eui: Eui,
    counter: u16,
    block: [u8; 16],
    cf: Option<[u8; 16]>,
) -> Accept
    ensures answers { AnswersRequest kind dev join_eui counter result }
    ensures fields { fixed_fields result ≡ take 12 block }
    ensures cf { result.radio.cf ≡ cf }
    ensures only { (a : Accept) (rest : List ℕ) → HasRanges a
        → AnswersRequest kind dev join_eui counter a → block ≡ fixed_fields a ++ rest
        → cf ≡ a.radio.cf → result ≡ a }
{
    Accept {
        kind,
        dev,
        seed: Seed {
            nonce: Nonce24::from_wire([block[0], block[1], block[2]]),
            join_eui,
            counter,
        },
        net: NetId::from_wire([block[3], block[4], block[5]]),
        addr: DevAddr::from_wire([block[6], block[7], block[8], block[9]]),
        radio: Radio {
            dl: block[10],
            rx_delay: block[11],
            cf,
        },
    }
}

// The CFList, which begins behind the fields of the first block.
fn cf_list(first: [u8; 16], second: [u8; 16]) -> [u8; 16]
    ensures { result ≡ drop 12 first ++ take 12 second }
{
    joined(&first[12..], &second[..12])
}

// The accept whose fields are in these bytes, and the MIC behind them, whatever it is.
fn unsealed(
    nwk_key: &[u8; 16],
    kind: AcceptKind,
    dev: Eui,
    join_eui: Eui,
    counter: u16,
    bytes: &[u8],
) -> Option<(Accept, [u8; 4])>
    ensures answers { IfSome result (λ r. AnswersRequest kind dev join_eui counter r.0) }
    ensures gives { IfSome result (λ r. r.1 ≡ accept_mic nwk_key.now r.0
        → bytes.now ≡ accept_text nwk_key.now r.0) }
    ensures only { (a : Accept) → HasRanges a → AnswersRequest kind dev join_eui counter a
        → bytes.now ≡ accept_text nwk_key.now a → result ≡ Some (a, accept_mic nwk_key.now a) }
{
    if bytes.is_empty() || bytes[0] != 0x20 {
        return None;
    }
    let keys = accept_key(nwk_key, dev, kind);
    match bytes.len() {
        17 => {
            let block = keys.encrypt(array_at(bytes, 1));
            let accept = accept_of(kind, dev, join_eui, counter, block, None);
            Some((accept, array_at(&block, 12)))
        }
        33 => {
            let first = keys.encrypt(array_at(bytes, 1));
            let second = keys.encrypt(array_at(bytes, 17));
            let cf = Some(cf_list(first, second));
            let accept = accept_of(kind, dev, join_eui, counter, first, cf);
            Some((accept, array_at(&second, 12)))
        }
        _ => None,
    }
}

// Whether this is the accept's MIC, under the device's JSIntKey.
fn has_mic(nwk_key: &[u8; 16], accept: &Accept, mic: [u8; 4]) -> bool
    ensures { IsTrue result ↔ (mic ≡ accept_mic nwk_key.now accept.now) }
{
    same_bytes(
        &mic,
        &sealing::accept_mic(&js_int_of(nwk_key, accept.dev), accept),
    )
}

/// The join-accept that these bytes are, to a device with this NwkKey that sent a request of this
/// kind, JoinEUI and counter (LoRaWAN 1.1, 6.2.3). None exactly where no accept has these bytes.
pub fn open_accept(
    nwk_key: &[u8; 16],
    kind: AcceptKind,
    dev: Eui,
    join_eui: Eui,
    counter: u16,
    bytes: &[u8],
) -> Option<Accept>
    ensures gives { IfSome result (λ a. bytes.now ≡ accept_text nwk_key.now a) }
    ensures answers { IfSome result (AnswersRequest kind dev join_eui counter) }
    ensures only { (a : Accept) → HasRanges a → AnswersRequest kind dev join_eui counter a
        → bytes.now ≡ accept_text nwk_key.now a → result ≡ Some a }
    ensures none { (result ≡ None) ↔ ((a : Accept) → HasRanges a
        → AnswersRequest kind dev join_eui counter a → bytes.now ≡ accept_text nwk_key.now a → ⊥) }
{
    let (accept, mic) = unsealed(nwk_key, kind, dev, join_eui, counter, bytes)?;
    if has_mic(nwk_key, &accept, mic) {
        Some(accept)
    } else {
        None
    }
}
