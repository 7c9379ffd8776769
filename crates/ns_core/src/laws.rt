//! Laws of a home network's decisions: each is a sentence over the definitions alone.

ghost use Rattle.ns_core.specs.Payloads.{PayloadCausesAscend};
ghost use Rattle.ns_core.specs.Rules.{CausesAscend};

/// The rules of an UplinkReq stand in the order of the table of refusals.
pub fn causes_ascend()
    ensures { CausesAscend }
{}

/// The rules of an XmitDataReq stand in the order of the table of refusals.
pub fn payload_causes_ascend()
    ensures { PayloadCausesAscend }
{}
