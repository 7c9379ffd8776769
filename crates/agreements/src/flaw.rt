ghost use Rattle.std.specs.Prelude.{◌≡◌};
ghost use Rattle.agreements.specs.Steps.{Gives, flaw_at, known, once};

use crate::Unread;
use crate::key::Key;

/// Why a key is refused.
#[derive(Clone, Copy)]
pub(crate) enum Why {
    Missing,
    BadValue,
    Twice,
    NoSuch,
}

/// What is wrong in a row: why, at which key, and at which element of its array where it has one.
#[derive(Clone, Copy)]
pub(crate) struct Flaw {
    pub(crate) why: Why,
    pub(crate) key: Key,
    pub(crate) place: Option<usize>,
}

impl Flaw {
    pub(crate) fn at(why: Why, key: Key) -> Flaw
        ensures { result ≡ flaw_at why key }
    {
        Flaw {
            why,
            key,
            place: None,
        }
    }
}

/// Refuses a value that stood at an earlier place.
pub(crate) fn once(key: Key, seen: bool) -> Result<(), Unread<Flaw>>
    ensures { Gives result (once key seen) }
{
    if seen {
        Err(Unread::Refused(Flaw::at(Why::Twice, key)))
    } else {
        Ok(())
    }
}

/// Refuses a value that names no row.
pub(crate) fn known(key: Key, found: bool) -> Result<(), Unread<Flaw>>
    ensures { Gives result (known key found) }
{
    if found {
        Ok(())
    } else {
        Err(Unread::Refused(Flaw::at(Why::NoSuch, key)))
    }
}
