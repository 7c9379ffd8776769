//! Uplinks as a device sends them, for tests and simulated devices.

ghost use Rattle.std.specs.Prelude.{◌≡◌, ◌≤◌, ◌+◌, ◌++◌, [], length, None};
ghost use Rattle.data_frames.specs.DataForms.{DataForm, port_and_payload, up_fctrl, up_message};
ghost use Rattle.data_frames.specs.Downlinks.{parts_of, sent};
ghost use Rattle.data_frames.specs.Mics.{up_mic};

use crate::DownBytes;
use crate::buffer::{Fields, message};
use crate::mic::{B1Fields, f_half, s_half};
use aes_cmac::{CmacKey, RoundKeys};
use wire_ids::{DevAddr, SessionKeys};

/// What a device sends (LoRaWAN 1.1, 4.3).
#[derive(Clone, Copy)]
pub struct UpParts<'a> {
    pub confirmed: bool,
    pub addr: DevAddr,
    pub adr: bool,
    pub adr_ack_req: bool,
    pub ack: bool,
    pub fopts: &'a [u8],
    pub port: Option<u8>,
    /// FRMPayload, as it is sent.
    pub payload: &'a [u8],
    /// The whole frame counter.
    pub count: u32,
    /// ConfFCnt.
    pub conf: u16,
    /// TxDr.
    pub rate: u8,
    /// TxCh.
    pub channel: u8,
}

impl<'a> UpParts<'a> {
    fn fctrl(&self) -> u8
        requires { length self.now.fopts.now ≤ 15 }
        ensures { result ≡ up_fctrl (parts_of self.now []) }
    {
        let adr = if self.adr { 128 } else { 0 };
        let adr_ack_req = if self.adr_ack_req { 64 } else { 0 };
        let ack = if self.ack { 32 } else { 0 };
        adr + adr_ack_req + ack + self.fopts.len() as u8
    }
}

#[tactic(auto, unfolding(crate::specs::DataForms::up_message))]
fn up_message(up: &UpParts<'_>) -> DownBytes
    requires fopts { length up.now.fopts.now ≤ 15 }
    requires size { 9 + length up.now.fopts.now + length up.now.payload.now ≤ 255 }
    ensures text { result ≡ up_message (parts_of up.now []) }
    ensures bound { length result ≤ 9 + length up.now.fopts.now + length up.now.payload.now }
{
    let mhdr = if up.confirmed { 0x80 } else { 0x40 };
    message(
        mhdr,
        &Fields {
            addr: up.addr,
            fctrl: up.fctrl(),
            wire: (up.count % 65536) as u16,
            fopts: up.fopts,
            port: up.port,
            payload: up.payload,
        },
    )
}

/// The frame of an uplink, with its MIC (LoRaWAN 1.1, 4.3 and 4.4).
pub fn up_bytes(keys: &SessionKeys, up: &UpParts<'_>) -> DownBytes
    requires fopts { length up.now.fopts.now ≤ 15 }
    requires bare { up.now.port ≡ None → up.now.payload.now ≡ [] }
    requires size { 13 + length up.now.fopts.now + length up.now.payload.now ≤ 255 }
    ensures form { DataForm result (sent keys.now up.now) }
{
    let frame = up_message(up);
    let message = frame.as_slice();
    let last = B1Fields {
        conf: up.conf,
        rate: up.rate,
        channel: up.channel,
    };
    let s = s_half(
        &CmacKey::of(&RoundKeys::new(&keys.s)),
        up.addr,
        up.count,
        last,
        message,
    );
    let f = f_half(&keys.f, up.addr, up.count, message);
    frame.with_mic([s[0], s[1], f[0], f[1]])
}
