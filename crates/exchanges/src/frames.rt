//! The data uplink that a gateway heard.

ghost use Rattle.std.specs.Prelude.{◌≡◌, ◌≤◌, length, is_some, IfSome};
ghost use Rattle.data_frames.specs.DataForms.{DataForm, fields_of};
ghost use Rattle.exchanges.specs.Frames.{HasFields, is_data};

use data_frames::{DataUp, read_data};

/// The fields of a data uplink, and None where the frame is none.
pub fn data_up(frame: &[u8]) -> Option<DataUp<'_>>
    ensures form { is_some result ≡ is_data frame.now }
    ensures fields { IfSome result (λ up. HasFields frame.now (fields_of up)) }
    ensures whole { IfSome result (λ up. up.whole.now ≡ frame.now) }
    ensures size { IfSome result (λ up. length frame.now ≤ 255) }
{
    match read_data(frame) {
        Ok(up) => Some(up),
        Err(_) => None,
    }
}
