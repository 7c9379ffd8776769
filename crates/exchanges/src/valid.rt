//! A valid uplink over a context: its full counter, and the channel on which it was sent.

ghost use Rattle.std.specs.Prelude.{◌≡◌};
ghost use Rattle.data_frames.specs.DataForms.{fields_of};
ghost use Rattle.exchanges.specs.Frames.{HasFields};
ghost use Rattle.exchanges.specs.Valid.{channel_of, conf_of, full_count, up_valid};

use contexts::Context;
use data_frames::{DataUp, full_count, mic_up_ok};
use wire_ids::SessionKeys;

/// The full counter of an uplink, and its channel.
#[derive(Clone, Copy)]
pub struct Count {
    pub count: u32,
    pub channel: u8,
}

// The least number above the last counter whose low 16 bits were sent.
fn counter(last: Option<u32>, wire: u16) -> Option<u32>
    ensures { result ≡ full_count last wire }
{
    full_count(last, wire)
}

// Where the frame acknowledges, the number of the last confirmed downlink.
fn conf_of(ack: bool, conf: Option<u16>) -> u16
    ensures { result ≡ conf_of ack conf }
{
    match conf {
        Some(number) if ack => number,
        _ => 0,
    }
}

// The least enabled channel on which the MIC is that of this counter.
fn channel_of(
    keys: &SessionKeys,
    up: &DataUp<'_>,
    count: u32,
    conf: u16,
    rate: u8,
    channels: u8,
) -> Option<u8>
    requires { HasFields up.now.whole.now (fields_of up.now) }
    ensures { result ≡ channel_of keys.now up.now.whole.now count conf rate channels }
{
    mic_up_ok(keys, up, count, conf, rate, channels)
}

/// The full counter and the channel of an uplink under these keys, where it is valid over the
/// context.
#[tactic(auto, unfolding(crate::specs::Valid::up_valid))]
pub fn up_valid(keys: &SessionKeys, context: &Context, up: &DataUp<'_>, rate: u8) -> Option<Count>
    requires { HasFields up.now.whole.now (fields_of up.now) }
    ensures { result ≡ up_valid keys.now context.now up.now.whole.now rate }
{
    let Some(count) = counter(context.last, up.wire) else {
        return None;
    };
    let conf = conf_of(up.ack, context.conf);
    match channel_of(keys, up, count, conf, rate, context.channels) {
        Some(channel) => Some(Count { count, channel }),
        None => None,
    }
}
