ghost use Rattle.std.specs.Prelude.{◌≡◌, ◌≤◌, [], length, None};
ghost use Rattle.data_frames.specs.Downlinks.{down_conf, down_fctrl};
ghost use Rattle.data_frames.specs.Downlinks.{down_message, down_text, downlink_of};

use crate::DownBytes;
use crate::buffer::{Fields, message};
use crate::mic::{BlockFields, mac_of};
use aes_cmac::{Cmac, RoundKeys};
use wire_ids::{DevAddr, SessionKeys};

/// A data downlink (LoRaWAN 1.1, 4.3).
#[derive(Clone, Copy)]
pub struct Down<'a> {
    pub addr: DevAddr,
    pub confirmed: bool,
    /// The counter of the uplink that it acknowledges.
    pub ack: Option<u32>,
    /// FPending.
    pub pending: bool,
    /// The whole frame counter, NFCntDown or AFCntDown.
    pub count: u32,
    pub port: Option<u8>,
    /// FRMPayload, as it is sent.
    pub payload: &'a [u8],
}

impl<'a> Down<'a> {
    fn fctrl(&self) -> u8
        ensures { result ≡ down_fctrl (downlink_of self.now) }
    {
        let ack = if self.ack.is_some() { 32 } else { 0 };
        let pending = if self.pending { 16 } else { 0 };
        ack + pending
    }

    // ConfFCnt.
    fn conf(&self) -> u16
        ensures { result ≡ down_conf self.now.ack }
    {
        match self.ack {
            None => 0,
            Some(count) => (count % 65536) as u16,
        }
    }
}

#[tactic(auto, unfolding(crate::specs::Downlinks::down_message))]
fn down_message(down: &Down<'_>) -> DownBytes
    requires { length down.now.payload.now ≤ 242 }
    ensures text { result ≡ down_message (downlink_of down.now) }
    ensures bound { length result ≤ 251 }
{
    let mhdr = if down.confirmed { 0xa0 } else { 0x60 };
    message(
        mhdr,
        &Fields {
            addr: down.addr,
            fctrl: down.fctrl(),
            wire: (down.count % 65536) as u16,
            fopts: &[],
            port: down.port,
            payload: down.payload,
        },
    )
}

/// The frame of a downlink with neither ADR nor FOpts, with its MIC under SNwkSIntKey (LoRaWAN 1.1,
/// 4.3 and 4.4).
#[tactic(auto, unfolding(crate::specs::Mics::down_mic))]
pub fn write_down(keys: &SessionKeys, down: &Down<'_>) -> DownBytes
    requires payload { length down.now.payload.now ≤ 242 }
    requires bare { down.now.port ≡ None → down.now.payload.now ≡ [] }
    ensures { result ≡ down_text keys.now (downlink_of down.now) }
{
    let frame = down_message(down);
    let fields = BlockFields {
        conf: down.conf(),
        rate: 0,
        channel: 0,
        dir: 1,
    };
    let mac = mac_of(
        Cmac::new(&RoundKeys::new(&keys.s)),
        fields,
        down.addr,
        down.count,
        frame.as_slice(),
    );
    frame.with_mic([mac[0], mac[1], mac[2], mac[3]])
}
