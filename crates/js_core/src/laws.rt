//! Laws of the join server's decisions.

ghost use Rattle.js_core.specs.Agreement.{AnswersAgree};
ghost use Rattle.js_core.specs.AppKey.{AppKeyStays};
ghost use Rattle.js_core.specs.Frames.{JoinFramesRead};
ghost use Rattle.js_core.specs.Rules.{CausesAscend};

/// Every answer has exactly the keys to which its receiver is entitled in the state that its own
/// change leaves, each under its own label.
pub fn answers_agree()
    ensures { AnswersAgree }
{}

/// The fields of a join- or rejoin-request are those of its join form, and no other bytes have any.
pub fn join_frames_read()
    ensures { JoinFramesRead }
{}

/// The rules of each message stand in the order of the table of refusals.
pub fn causes_ascend()
    ensures { CausesAscend }
{}

/// The AppKey of a device reaches no answer but those to a receiver who is entitled to its AppSKey,
/// and of these the AESKey of AppSKey alone; and it doesn't reach what a request changes.
pub fn app_key_stays()
    ensures { AppKeyStays }
{}
