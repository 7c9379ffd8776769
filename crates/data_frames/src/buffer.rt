use arrayvec::ArrayVec;
use std::marker::Model;

/// The bytes of a data frame, at most 255. Contracts see them as a list.
#[derive(Drop)]
pub struct DownBytes {
    bytes: ArrayVec<u8, 255>,
}

impl Model for DownBytes {
    ghost use Rattle.std.specs.Prelude.{List, ℕ};

    ghost Value = { List ℕ };

    ghost view = { λ b. b.bytes.items };
}

ghost use Rattle.std.specs.Prelude.{◌≡◌, ◌≤◌, ◌+◌, ◌++◌, [], length, Option};
ghost use Rattle.data_frames.specs.DataForms.{message};

use wire_ids::DevAddr;

impl DownBytes {
    /// Its bytes, in order.
    pub fn as_slice(&self) -> &[u8]
        ensures value { result.now ≡ self.now }
        ensures bound { length result.now ≤ 255 }
    {
        self.bytes.as_slice()
    }

    fn add(&mut self, bytes: &[u8])
        requires { length self.old + length bytes.now ≤ 255 }
        ensures { self.new ≡ self.old ++ bytes.now }
    {
        let _ = self.bytes.try_extend_from_slice(bytes);
    }

    // The frame with its MIC.
    pub(crate) fn with_mic(mut self, mic: [u8; 4]) -> DownBytes
        requires { length self + 4 ≤ 255 }
        ensures { result ≡ self ++ mic }
    {
        self.add(&mic);
        self
    }
}

/// The fields of a frame before its MIC, but for the first byte.
#[derive(Clone, Copy)]
pub(crate) struct Fields<'a> {
    pub addr: DevAddr,
    pub fctrl: u8,
    pub wire: u16,
    pub fopts: &'a [u8],
    pub port: Option<u8>,
    pub payload: &'a [u8],
}

// MHDR, FHDR, FPort and FRMPayload (LoRaWAN 1.1, 4.3).
pub(crate) fn message(mhdr: u8, fields: &Fields<'_>) -> DownBytes
    requires { 9 + length fields.now.fopts.now + length fields.now.payload.now ≤ 255 }
    ensures text { result ≡ message mhdr fields.now.addr fields.now.fctrl fields.now.wire
        fields.now.fopts.now fields.now.port fields.now.payload.now }
    ensures bound { length result ≤ 9 + length fields.now.fopts.now
        + length fields.now.payload.now }
{
    let mut frame = DownBytes {
        bytes: ArrayVec::new(),
    };
    frame.add(&[mhdr]);
    frame.add(&fields.addr.to_wire());
    frame.add(&[fields.fctrl]);
    frame.add(&fields.wire.to_le_bytes());
    frame.add(fields.fopts);
    if let Some(port) = fields.port {
        frame.add(&[port]);
    }
    frame.add(fields.payload);
    frame
}
