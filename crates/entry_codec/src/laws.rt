//! Laws of the state that entries make.

ghost use Rattle.entry_codec.specs.Issues.{DevNoncesOnce, JoinNoncesOnce};
ghost use Rattle.entry_codec.specs.Replay.{SoundReplays};
ghost use Rattle.entry_codec.specs.Told.{OpenedCanBeTold};

/// What holds of every state holds of the first one of tables, and of each one that entries which
/// fit lead to.
pub fn sound_replays()
    ensures { SoundReplays }
{}

/// No JoinNonce is given to a device twice, over every list of entries that fit.
pub fn join_nonces_once()
    ensures { JoinNoncesOnce }
{}

/// No DevNonce of a device is accepted twice, by a join or by a lending that answers a join, over
/// every list of entries that fit.
pub fn dev_nonces_once()
    ensures { DevNoncesOnce }
{}

/// What open asks need so that whatever their peers answer fits, holds before the first entry and
/// after each opening.
pub fn opened_asks_can_be_told()
    ensures { OpenedCanBeTold }
{}
