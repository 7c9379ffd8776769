//! Laws of uplinks: each is a sentence over the definitions alone.

ghost use Rattle.exchanges.specs.Frames.{DataFramesRead};
ghost use Rattle.exchanges.specs.Valid.{ValidUplinks};

/// What decides of a data uplink's bytes is what its data form tells.
pub fn data_frames_read()
    ensures { DataFramesRead }
{}

/// An uplink is valid over a context with the least counter above the last one whose low 16 bits
/// were sent, and the least enabled channel on which its MIC is valid; and where there are both, it
/// is valid.
pub fn valid_uplinks()
    ensures { ValidUplinks }
{}
