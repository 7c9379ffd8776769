ghost use Rattle.std.specs.Prelude.{◌≡◌, ◌≤◌, ◌+◌, ◌%◌, length, take, drop, slice_index, []};
ghost use Rattle.std.specs.Prelude.{IfOk, IfErr, IsOk, None, Some};
ghost use Rattle.std.specs.Int.{w16, w32, to_le_bytes};
ghost use Rattle.data_frames.specs.DataForms.{DataForm, Uplink, data_fault, fields_of};
ghost use Rattle.data_frames.specs.DataForms.{is_data_sized, port_and_payload};

use wire_ids::{DevAddr, FrameFault};

/// A data uplink of a device (LoRaWAN 1.1, 4.3).
#[derive(Clone, Copy)]
pub struct DataUp<'a> {
    pub confirmed: bool,
    pub addr: DevAddr,
    pub adr: bool,
    pub adr_ack_req: bool,
    pub ack: bool,
    pub class_b: bool,
    /// FCnt: the low 16 bits of the frame counter.
    pub wire: u16,
    pub fopts: &'a [u8],
    pub port: Option<u8>,
    pub payload: &'a [u8],
    pub mic: [u8; 4],
    /// The frame that has these fields.
    pub whole: &'a [u8],
}

/// Whether a frame has a size of data frames: 12 to 255 bytes, with room for FOpts, of which the
/// byte at 5 tells the length, before the four bytes of the MIC (LoRaWAN 1.1, 4.3.1).
pub fn is_data_sized(frame: &[u8]) -> bool
    ensures { result ≡ is_data_sized frame.now }
{
    if frame.len() < 12 || frame.len() > 255 {
        return false;
    }
    12 + usize::from(frame[5] % 16) <= frame.len()
}

fn addr_at(frame: &[u8], at: usize) -> DevAddr
    requires { at + 4 ≤ length frame.now }
    ensures bytes { to_le_bytes w32 result.0 ≡ take 4 (drop at frame.now) }
{
    let mut bytes = [0; 4];
    bytes.copy_from_slice(&frame[at..at + 4]);
    DevAddr::from_wire(bytes)
}

fn u16_at(frame: &[u8], at: usize) -> u16
    requires { at + 2 ≤ length frame.now }
    ensures bytes { to_le_bytes w16 result ≡ take 2 (drop at frame.now) }
{
    let mut bytes = [0; 2];
    bytes.copy_from_slice(&frame[at..at + 2]);
    u16::from_le_bytes(bytes)
}

fn mic_at(frame: &[u8], at: usize) -> [u8; 4]
    requires { at + 4 ≡ length frame.now }
    ensures bytes { result ≡ drop at frame.now }
{
    let mut mic = [0; 4];
    mic.copy_from_slice(&frame[at..]);
    mic
}

// FPort and FRMPayload.
fn port_of(rest: &[u8]) -> (Option<u8>, &[u8])
    ensures bytes { rest.now ≡ port_and_payload result.0 result.1.now }
    ensures bare { result.0 ≡ None → result.1.now ≡ [] }
{
    match rest {
        [] => (None, rest),
        [port, payload @ ..] => (Some(*port), payload),
    }
}

/// The fields of a data uplink, which borrow from the frame. `Size` exactly where the frame hasn't
/// 12 to 255 bytes or its FOptsLen needs more bytes than stand before the MIC, and else `Form`
/// exactly where its first byte is neither that of an unconfirmed (40) nor of a confirmed (80) data
/// uplink (LoRaWAN 1.1, 4.2 and 4.3).
#[tactic(auto, unfolding(crate::specs::DataForms::data_fault))]
pub fn read_data(frame: &[u8]) -> Result<DataUp<'_>, FrameFault>
    ensures form { IfOk result (λ u. DataForm frame.now (fields_of u)) }
    ensures whole { IfOk result (λ u. u.whole.now ≡ frame.now) }
    ensures size { IfOk result (λ u. (12 ≤ length u.whole.now) × (length u.whole.now ≤ 255)) }
    ensures only { (v : Uplink) → DataForm frame.now v
        → IsOk result × IfOk result (λ u. fields_of u ≡ v) }
    ensures fault { IfErr result (λ e. data_fault frame.now ≡ Some e) }
{
    if !is_data_sized(frame) {
        return Err(FrameFault::Size { got: frame.len() });
    }
    let confirmed = match frame[0] {
        0x40 => false,
        0x80 => true,
        _ => return Err(FrameFault::Form),
    };
    let control = frame[5];
    let at = 8 + usize::from(control % 16);
    let end = frame.len() - 4;
    let (port, payload) = port_of(&frame[at..end]);
    Ok(DataUp {
        confirmed,
        addr: addr_at(frame, 1),
        adr: control / 128 == 1,
        adr_ack_req: control / 64 % 2 == 1,
        ack: control / 32 % 2 == 1,
        class_b: control / 16 % 2 == 1,
        wire: u16_at(frame, 6),
        fopts: &frame[8..at],
        port,
        payload,
        mic: mic_at(frame, end),
        whole: frame,
    })
}
