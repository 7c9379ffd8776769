ghost use Rattle.std.specs.Prelude.{◌≡◌, IsTrue};
ghost use Rattle.join_frames.specs.Accepts.{join_req_type, is_rejoin, fixed_fields, cf_list};

use wire_ids::{DevAddr, Eui, NetId, Radio, Seed};

/// Which request a join-accept answers: a join-request, or a rejoin-request of type 0, 1 or 2.
#[derive(Clone, Copy, Debug, PartialEq, Eq)]
pub enum AcceptKind {
    Join,
    Rejoin0,
    Rejoin1,
    Rejoin2,
}

impl AcceptKind {
    // JoinReqType (LoRaWAN 1.1, 6.2.3).
    pub(crate) fn join_req_type(self) -> u8
        ensures { result ≡ join_req_type self }
    {
        match self {
            AcceptKind::Join => 0xff,
            AcceptKind::Rejoin0 => 0,
            AcceptKind::Rejoin1 => 1,
            AcceptKind::Rejoin2 => 2,
        }
    }

    pub(crate) fn is_rejoin(self) -> bool
        ensures { result ≡ is_rejoin self }
    {
        match self {
            AcceptKind::Join => false,
            AcceptKind::Rejoin0 | AcceptKind::Rejoin1 | AcceptKind::Rejoin2 => true,
        }
    }
}

/// A join-accept for a device: the request's JoinEUI and counter and the JoinNonce are in `seed`,
/// and `net` is the Home_NetID (LoRaWAN 1.1, 6.2.3).
#[derive(Clone, Copy, Debug, PartialEq, Eq)]
pub struct Accept {
    pub kind: AcceptKind,
    pub dev: Eui,
    pub seed: Seed,
    pub net: NetId,
    pub addr: DevAddr,
    pub radio: Radio,
}

impl Accept {
    // JoinNonce, Home_NetID, DevAddr, DLSettings and RxDelay.
    #[tactic(auto, unfolding(crate::specs::Accepts::fixed_fields))]
    pub(crate) fn fixed_fields(&self) -> [u8; 12]
        ensures { result ≡ fixed_fields self.now }
    {
        let mut fields = [0; 12];
        fields[..3].copy_from_slice(&self.seed.nonce.to_wire());
        fields[3..6].copy_from_slice(&self.net.to_wire());
        fields[6..10].copy_from_slice(&self.addr.to_wire());
        fields[10] = self.radio.dl;
        fields[11] = self.radio.rx_delay;
        fields
    }

    // The CFList, where there is one.
    pub(crate) fn cf_list(&self) -> &[u8]
        ensures { result.now ≡ cf_list self.now.radio.cf }
    {
        match &self.radio.cf {
            None => &[],
            Some(cf) => cf,
        }
    }
}
