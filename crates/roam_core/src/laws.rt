//! Laws of the desk: each is a sentence over the definitions alone.

ghost use Rattle.roam_core.specs.Agreement.{KeptAgree, LinesAgree};
ghost use Rattle.roam_core.specs.AppKey.{AppKeyStays};
ghost use Rattle.roam_core.specs.Decided.{PartsDecide};
ghost use Rattle.roam_core.specs.Entering.{EntriesFit, RepliesKeep, StatesStay};
ghost use Rattle.roam_core.specs.Issues.{HistoriesIssueOnce};
ghost use Rattle.roam_core.specs.Legal.{LinesGoOn};
ghost use Rattle.roam_core.specs.Lines.{TooLongAlike};
ghost use Rattle.roam_core.specs.Order.{NumbersRise};

/// The numbers of the order rise, and each refusal has its own in the table of refusals.
pub fn numbers_rise()
    ensures { NumbersRise }
{}

/// A request that no line of the order before the size stands against comes to what its part makes
/// of it: the home network of a gateway's request and of a payload, the join server of any other.
pub fn parts_decide()
    ensures { PartsDecide }
{}

/// Over tables in which no DevEUI has two rows, the entry that a line makes fits the state in which
/// it is made, which is one such as entries lead to.
pub fn entries_fit()
    ensures { EntriesFit }
{}

/// The first state is one of its tables, and every entry leaves it so.
pub fn states_stay()
    ensures { StatesStay }
{}

/// A refusal, a kept answer, the answer to a duplicate, and one that neither gives a session nor
/// counts an uplink nor takes a payload, make no entry and change nothing.
pub fn replies_keep()
    ensures { RepliesKeep }
{}

/// A line above the limit of 8,192 bytes is answered as its first 8,193 bytes are, and makes no
/// entry.
pub fn too_long_alike()
    ensures { TooLongAlike }
{}

/// Over the tables of each valid text the answer to each line agrees with the entitlement table in
/// the state that its own entry leaves: its keys are exactly those to which its receiver is
/// entitled, each wrapped under the KEK of its own label.
pub fn lines_agree()
    ensures { LinesAgree }
{}

/// Over every legal history a kept answer that is given again agreed so when its entry was made.
pub fn kept_agree()
    ensures { KeptAgree }
{}

/// Two desks whose tables differ in the AppKey of one device give the same answers, kept ones too,
/// over every list of lines with their moments, but to those who are entitled to the device's
/// AppSKey, and to these too but for its AESKey. They keep the same state.
pub fn app_key_stays()
    ensures { AppKeyStays }
{}

/// Over every legal history no JoinNonce is given to a device twice, no DevNonce of it accepted
/// twice, and no number of a downlink counter of one context issued twice, and each is above those
/// before it.
pub fn issued_once()
    ensures { HistoriesIssueOnce }
{}

/// A legal history that has its first entry goes on legally by the entry of each line, over tables
/// whose first state knows each sender that has a row.
pub fn lines_go_on()
    ensures { LinesGoOn }
{}
