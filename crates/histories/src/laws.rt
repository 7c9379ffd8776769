//! What holds of every list of entries that fit, from the first state of tables.

ghost use Rattle.histories.specs.Downlinks.{DownlinkNumbersOnce};

/// No number of one downlink counter of one context is issued twice, each is above those before
/// it, and each downlink has one, over every list of entries that fit.
pub fn downlink_numbers_once()
    ensures { DownlinkNumbersOnce }
{}
