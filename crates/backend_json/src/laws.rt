//! Laws of the messages.

ghost use Rattle.backend_json.specs.Keys.{KeysAreWritten};
ghost use Rattle.backend_json.specs.Order.{NamesAscend};

/// The keys in the text of an answer are the answer's, each under its own name.
pub fn keys_are_written()
    ensures { KeysAreWritten }
{}

/// The names of the members of an answer ascend in byte order, and none stands twice.
pub fn names_ascend()
    ensures { NamesAscend }
{}
