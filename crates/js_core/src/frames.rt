//! The sizes of frames, and the members that go with a join- or rejoin-request.

ghost use Rattle.std.specs.Prelude.{◌≡◌, ◌<◌, length, is_none, IfSome, Some};
ghost use Rattle.std.specs.List.{list_all};
ghost use Rattle.std.specs.Char.{is_ascii_digit};
ghost use Rattle.js_core.specs.Frames.{counter_of, dev_eui_of, frame_size, is_asked_by};
ghost use Rattle.js_core.specs.Frames.{is_cf_list, is_dl_settings, is_mac_version, is_sized_as};
ghost use Rattle.js_core.specs.Frames.{join_up_of, wrong_frame, wrong_member, wrong_size};

use crate::Activation;
use backend_json::JoinRequest;
use data_frames::is_data_sized;
use join_frames::{JoinUp, read_up};
use wire_ids::Eui;

// ---- sizes

// Whether the frame has a size of this message type.
fn is_sized_as(kind: u8, frame: &[u8]) -> bool
    ensures { result ≡ is_sized_as kind frame.now }
{
    if kind == 0 {
        frame.len() == 23
    } else if kind == 6 {
        frame.len() == 19 || frame.len() == 24
    } else if kind == 2 || kind == 4 {
        is_data_sized(frame)
    } else {
        true
    }
}

/// Whether the frame is empty or has a size that its message type can't have.
#[tactic(auto, unfolding(crate::specs::Frames::wrong_size))]
pub fn wrong_size(frame: &[u8]) -> bool
    ensures { result ≡ wrong_size frame.now }
{
    if frame.is_empty() {
        return true;
    }
    !is_sized_as(frame[0] / 32, frame)
}

// ---- fields

/// The fields of a join- or rejoin-request, and None where the frame is none (LoRaWAN 1.1, 6.2.2
/// and 6.2.4).
#[tactic(auto, using(crate::proofs::JoinFrames::form_size))]
pub fn join_up(frame: &[u8]) -> Option<JoinUp>
    ensures fields { result ≡ join_up_of frame.now }
    ensures size { IfSome result (λ up. length frame.now ≡ frame_size up) }
{
    match read_up(frame) {
        Ok(up) => Some(up),
        Err(_) => None,
    }
}

/// Its DevNonce, RJcount0 or RJcount1.
pub(crate) fn counter(up: &JoinUp) -> u16
    ensures { result ≡ counter_of up.now }
{
    match up {
        JoinUp::Join { nonce, .. } => *nonce,
        JoinUp::Rejoin02 { count, .. } => *count,
        JoinUp::Rejoin1 { count, .. } => *count,
    }
}

/// Its DevEUI.
pub(crate) fn dev_eui(up: &JoinUp) -> Eui
    ensures { result ≡ dev_eui_of up.now }
{
    match up {
        JoinUp::Join { dev_eui, .. } => *dev_eui,
        JoinUp::Rejoin02 { dev_eui, .. } => *dev_eui,
        JoinUp::Rejoin1 { dev_eui, .. } => *dev_eui,
    }
}

// ---- members

fn are_digits(text: &[u8]) -> bool
    ensures { result ≡ list_all is_ascii_digit text.now }
{
    text.iter().all(|b| b.is_ascii_digit())
}

// Whether a MACVersion is 1.1, or 1.1 with a dot and digits.
#[tactic(auto, unfolding(crate::specs::Frames::is_mac_version))]
fn is_mac_version(text: &[u8]) -> bool
    ensures { result ≡ is_mac_version text.now }
{
    if text == b"1.1".as_slice() {
        return true;
    }
    if text.len() <= 4 {
        return false;
    }
    &text[..4] == b"1.1.".as_slice() && are_digits(&text[4..])
}

// Whether DLSettings has OptNeg and an RX1DROffset of at most 5.
fn is_dl_settings(dl: u8) -> bool
    ensures { result ≡ is_dl_settings dl }
{
    dl >= 128 && dl / 16 % 8 <= 5
}

// Whether a CFList is one of frequencies, or there is none.
fn is_cf_list(cf: &Option<[u8; 16]>) -> bool
    ensures { result ≡ is_cf_list cf.now }
{
    match cf {
        None => true,
        Some(cf) => cf[15] == 0,
    }
}

// Whether a message of this type has such a frame.
fn is_asked_by(activation: Activation, up: &JoinUp) -> bool
    ensures { result ≡ is_asked_by activation up.now }
{
    match activation {
        Activation::Join => match up {
            JoinUp::Join { .. } => true,
            JoinUp::Rejoin02 { .. } => false,
            JoinUp::Rejoin1 { .. } => false,
        },
        Activation::Rejoin => match up {
            JoinUp::Join { .. } => false,
            JoinUp::Rejoin02 { .. } => true,
            JoinUp::Rejoin1 { .. } => true,
        },
    }
}

// Whether a member doesn't go with the frame.
fn wrong_member(request: &JoinRequest, up: &JoinUp) -> bool
    ensures { result ≡ wrong_member request.now up.now }
{
    !is_mac_version(request.mac_version.as_slice())
        || !is_dl_settings(request.radio.dl)
        || !is_cf_list(&request.radio.cf)
        || request.dev_eui.0 != dev_eui(up).0
}

/// The join- or rejoin-request of a message, and None where its frame is none of the message's
/// type, or a member doesn't go with it.
#[tactic(auto, unfolding(crate::specs::Frames::wrong_frame))]
pub(crate) fn fitting_frame(activation: Activation, request: &JoinRequest) -> Option<JoinUp>
    ensures fields { IfSome result (λ up. join_up_of request.now.phy_payload ≡ Some up) }
    ensures size { IfSome result (λ up. length request.now.phy_payload ≡ frame_size up) }
    ensures fits { is_none result
        ≡ wrong_frame activation request.now (join_up_of request.now.phy_payload) }
{
    let Some(up) = join_up(request.phy_payload.as_slice()) else {
        return None;
    };
    if !is_asked_by(activation, &up) || wrong_member(request, &up) {
        return None;
    }
    Some(up)
}
