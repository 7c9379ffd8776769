ghost use Rattle.std.specs.Prelude.{◌≡◌, ◌≤◌, ◌+◌, length, take, drop, IfOk, IfErr};
ghost use Rattle.std.specs.Int.{w16, w64, to_le_bytes};
ghost use Rattle.join_frames.specs.JoinForms.{JoinForm, JoinFault};
ghost use Rattle.join_frames.specs.declared.join_up.JoinUp.{JoinUp};

use crate::pieces::array_at;
use wire_ids::{Eui, FrameFault, NetId};

/// A join-request or a rejoin-request of a device (LoRaWAN 1.1, 6.2.2 and 6.2.4).
#[derive(Clone, Copy, Debug, PartialEq, Eq)]
pub enum JoinUp {
    Join {
        join_eui: Eui,
        dev_eui: Eui,
        nonce: u16,
        mic: [u8; 4],
    },
    /// A rejoin-request of type 0 or 2, which `kind` tells.
    Rejoin02 {
        kind: u8,
        net: NetId,
        dev_eui: Eui,
        count: u16,
        mic: [u8; 4],
    },
    Rejoin1 {
        join_eui: Eui,
        dev_eui: Eui,
        count: u16,
        mic: [u8; 4],
    },
}

fn u16_at(frame: &[u8], at: usize) -> u16
    requires { at + 2 ≤ length frame.now }
    ensures bytes { to_le_bytes w16 result ≡ take 2 (drop at frame.now) }
{
    u16::from_le_bytes(array_at(frame, at))
}

fn eui_at(frame: &[u8], at: usize) -> Eui
    requires { at + 8 ≤ length frame.now }
    ensures bytes { to_le_bytes w64 result.0 ≡ take 8 (drop at frame.now) }
{
    Eui::from_wire(array_at(frame, at))
}

/// The fields of a join-request of 23 bytes or of a rejoin-request of 19 or 24 bytes. `Size` where
/// the frame has another length, and `Form` where its first bytes are those of no frame of its
/// length.
pub fn read_up(frame: &[u8]) -> Result<JoinUp, FrameFault>
    ensures form { IfOk result (λ v. JoinForm frame.now v) }
    ensures only { (v : JoinUp) → JoinForm frame.now v → result ≡ Ok v }
    ensures fault { IfErr result (λ e. JoinFault frame.now e) }
{
    match frame.len() {
        23 if frame[0] == 0 => Ok(JoinUp::Join {
            join_eui: eui_at(frame, 1),
            dev_eui: eui_at(frame, 9),
            nonce: u16_at(frame, 17),
            mic: array_at(frame, 19),
        }),
        19 if frame[0] == 0xc0 && (frame[1] == 0 || frame[1] == 2) => Ok(JoinUp::Rejoin02 {
            kind: frame[1],
            net: NetId::from_wire(array_at(frame, 2)),
            dev_eui: eui_at(frame, 5),
            count: u16_at(frame, 13),
            mic: array_at(frame, 15),
        }),
        24 if frame[0] == 0xc0 && frame[1] == 1 => Ok(JoinUp::Rejoin1 {
            join_eui: eui_at(frame, 2),
            dev_eui: eui_at(frame, 10),
            count: u16_at(frame, 18),
            mic: array_at(frame, 20),
        }),
        19 | 23 | 24 => Err(FrameFault::Form),
        got => Err(FrameFault::Size { got }),
    }
}
