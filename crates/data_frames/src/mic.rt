// Message integrity codes (LoRaWAN 1.1, 4.4).
ghost use Rattle.std.specs.Prelude.{◌≡◌, ◌<◌, ◌≤◌, ◌↔◌, ◌++◌, ℕ, List, [], length, IsTrue};
ghost use Rattle.std.specs.Prelude.{IfSome, IfNone};
ghost use Rattle.aes_cmac.specs.Mac.{mac, Holds};
ghost use Rattle.data_frames.specs.Mics.{Fits, HasFHalf, HasSHalf, IsChannel, IsEnabled, f_half};
ghost use Rattle.data_frames.specs.Mics.{mic_block, s_half, without_mic};

use crate::DataUp;
use aes_cmac::{Cmac, CmacKey, RoundKeys, same_bytes};
use wire_ids::{DevAddr, SessionKeys};

/// What a MIC's first block tells beside the frame's address, counter and length.
#[derive(Clone, Copy)]
pub(crate) struct BlockFields {
    pub conf: u16,
    pub rate: u8,
    pub channel: u8,
    pub dir: u8,
}

fn mic_block(fields: BlockFields, addr: DevAddr, count: u32, len: usize) -> [u8; 16]
    ensures { result ≡ mic_block fields.conf fields.rate fields.channel fields.dir addr count len }
{
    let [conf_low, conf_high] = fields.conf.to_le_bytes();
    let mut block = [0; 16];
    block[..6].copy_from_slice(&[
        0x49,
        conf_low,
        conf_high,
        fields.rate,
        fields.channel,
        fields.dir,
    ]);
    block[6..10].copy_from_slice(&addr.to_wire());
    block[10..14].copy_from_slice(&count.to_le_bytes());
    block[15] = (len % 256) as u8;
    block
}

// The CMAC of the block and the message, from one that is begun.
pub(crate) fn mac_of(
    begun: Cmac<'_>,
    fields: BlockFields,
    addr: DevAddr,
    count: u32,
    message: &[u8],
) -> [u8; 16]
    ensures { (key : List ℕ) → Holds key begun.entry [] → result ≡ mac key
        (mic_block fields.conf fields.rate fields.channel fields.dir addr count (length message.now)
        ++ message.now) }
{
    let mut mac = begun;
    mac.update(&mic_block(fields, addr, count, message.len()));
    mac.update(message);
    mac.finish()
}

// The two bytes of cmacF.
#[tactic(auto, unfolding(crate::specs::Mics::f_half))]
pub(crate) fn f_half(f: &[u8; 16], addr: DevAddr, count: u32, message: &[u8]) -> [u8; 2]
    ensures { result ≡ f_half f.now addr count message.now }
{
    let fields = BlockFields {
        conf: 0,
        rate: 0,
        channel: 0,
        dir: 0,
    };
    let mac = mac_of(Cmac::new(&RoundKeys::new(f)), fields, addr, count, message);
    [mac[0], mac[1]]
}

/// What an uplink's S half tells beside its F half.
#[derive(Clone, Copy)]
pub(crate) struct B1Fields {
    pub conf: u16,
    pub rate: u8,
    pub channel: u8,
}

// The two bytes of cmacS.
#[tactic(auto, unfolding(crate::specs::Mics::s_half))]
pub(crate) fn s_half(
    key: &CmacKey<'_>,
    addr: DevAddr,
    count: u32,
    sent: B1Fields,
    message: &[u8],
) -> [u8; 2]
    ensures { result ≡ s_half key.now addr count sent.conf sent.rate sent.channel message.now }
{
    let fields = BlockFields {
        conf: sent.conf,
        rate: sent.rate,
        channel: sent.channel,
        dir: 0,
    };
    let mac = mac_of(key.begin(), fields, addr, count, message);
    [mac[0], mac[1]]
}

// All bytes but the last four, or none.
fn without_mic(frame: &[u8]) -> &[u8]
    ensures { result.now ≡ without_mic frame.now }
{
    &frame[..frame.len().saturating_sub(4)]
}

/// Whether the last two bytes of the frame's MIC are those of its F half under FNwkSIntKey, at this
/// counter (LoRaWAN 1.1, 4.4). The message is `whole` but for its last four bytes, and empty where
/// it has fewer; of a length above 255, which no frame of `read_data` has, the low byte counts.
pub fn mic_f_ok(f: &[u8; 16], up: &DataUp<'_>, count: u32) -> bool
    ensures { IsTrue result ↔ HasFHalf f.now up.now count }
{
    let half = f_half(f, up.addr, count, without_mic(up.whole));
    same_bytes(&up.mic[2..], &half)
}

// Whether the S half is that of the frame as it was sent.
fn has_s_half(key: &CmacKey<'_>, up: &DataUp<'_>, count: u32, sent: B1Fields) -> bool
    ensures { IsTrue result ↔ HasSHalf key.now up.now count sent.conf sent.rate sent.channel }
{
    let half = s_half(key, up.addr, count, sent, without_mic(up.whole));
    same_bytes(&up.mic[..2], &half)
}

fn is_enabled(channels: u8, channel: u8) -> bool
    requires { channel < 8 }
    ensures { IsTrue result ↔ IsEnabled channels channel }
{
    channels >> channel & 1 == 1
}

// Whether the channel is enabled, and the S half that of the frame on it.
fn fits(key: &CmacKey<'_>, up: &DataUp<'_>, count: u32, channels: u8, sent: B1Fields) -> bool
    requires { sent.channel < 8 }
    ensures { IsTrue result ↔ IsEnabled channels sent.channel
        × HasSHalf key.now up.now count sent.conf sent.rate sent.channel }
{
    is_enabled(channels, sent.channel) && has_s_half(key, up, count, sent)
}

/// The channel of an uplink: the least of the enabled ones, whose bits are set in `channels`, on
/// which its MIC is that of this counter, ConfFCnt `conf` and TxDr `rate` (LoRaWAN 1.1, 4.4). None
/// exactly where there is no such channel. The message is that of `mic_f_ok`. The F half, in which
/// no channel stands, is tried first.
pub fn mic_up_ok(
    keys: &SessionKeys,
    up: &DataUp<'_>,
    count: u32,
    conf: u16,
    rate: u8,
    channels: u8,
) -> Option<u8>
    ensures channel { IfSome result (λ k. IsChannel keys.now up.now count conf rate channels k) }
    ensures none { IfNone result ((k : ℕ) → ¬ Fits keys.now up.now count conf rate channels k) }
{
    if !mic_f_ok(&keys.f, up, count) {
        return None;
    }
    let round_keys = RoundKeys::new(&keys.s);
    let s = CmacKey::of(&round_keys);
    'channels: for channel in 0..8 {
        let sent = B1Fields {
            conf,
            rate,
            channel,
        };
        if fits(&s, up, count, channels, sent) {
            return Some(channel);
        }
    }
    None
}
