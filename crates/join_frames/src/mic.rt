ghost use Rattle.std.specs.Prelude.{◌≡◌, ◌<◌, ◌≤◌, ◌-◌, ◌↔◌, ◌⊎◌, length, take, drop, IsTrue};
ghost use Rattle.key_vault.specs.Table.{nwk_at};
ghost use Rattle.join_frames.specs.Mics.{mic, HasMic};

use aes_cmac::{RoundKeys, same_bytes};
use key_vault::{BlockFn, Vault};

pub(crate) fn first_four(block: [u8; 16]) -> [u8; 4]
    ensures { result ≡ take 4 block }
{
    [block[0], block[1], block[2], block[3]]
}

#[tactic(auto, unfolding(crate::specs::Mics::mic))]
pub(crate) fn mic_of(key: &[u8; 16], text: &[u8]) -> [u8; 4]
    ensures { result ≡ mic key.now text.now }
{
    first_four(RoundKeys::new(key).cmac(text))
}

// Whether these are the frame's last four bytes.
fn ends_in(frame: &[u8], mic: [u8; 4]) -> bool
    requires { 4 ≤ length frame.now }
    ensures { IsTrue result ↔ (drop (length frame.now - 4) frame.now ≡ mic) }
{
    same_bytes(&frame[frame.len() - 4..], &mic)
}

/// Whether the join-request's MIC is that of its fields under the NwkKey of row `i` (LoRaWAN 1.1,
/// 6.2.2).
#[tactic(auto, unfolding(crate::specs::Mics::mic))]
pub fn join_mic_ok<E: BlockFn, D: BlockFn>(vault: &Vault<E, D>, i: u32, frame: &[u8; 23]) -> bool
    requires { i < length vault.now }
    ensures { IsTrue result ↔ HasMic (nwk_at vault.now i) frame.now }
{
    ends_in(frame, first_four(vault.nwk_cmac(i, &frame[..19])))
}

/// Whether the rejoin-request of 19 or 24 bytes has the MIC of its fields under `key`, which is
/// SNwkSIntKey for types 0 and 2 and JSIntKey for type 1 (LoRaWAN 1.1, 6.2.4).
pub fn rejoin_mic_ok(key: &[u8; 16], frame: &[u8]) -> bool
    requires { (length frame.now ≡ 19) ⊎ (length frame.now ≡ 24) }
    ensures { IsTrue result ↔ HasMic key.now frame.now }
{
    ends_in(frame, mic_of(key, &frame[..frame.len() - 4]))
}
