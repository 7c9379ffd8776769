ghost use Rattle.std.specs.Prelude.{◌≡◌, IfOk, string_bytes};
ghost use Rattle.agreements.specs.Walk.{IsFault, fault_in, fault_number, fault_of, fault_path};
ghost use Rattle.agreements.specs.Walk.{key_path, path_of};
ghost use Rattle.agreements.specs.declared.fault.TablesFault.TheVariants as fault;

use crate::Unread;
use crate::flaw::{Flaw, Why};
use crate::key::Key;
use std::alloc::{AllocError, Global};
use wire_ids::Text;

/// Why a text has no tables: the first fault of the walk through it. A path is `text`, a section as
/// `device`, or a key as `desk.net_id`, `device[2].nwk_key` or `desk.join_euis[1]`; rows count from
/// 0.
#[derive(Drop)]
pub enum TablesFault {
    /// The text isn't UTF-8, or no TOML document.
    NotToml,
    /// The key, or the section `desk`, isn't there.
    Missing { path: Text },
    /// The value isn't of the key's form, or the section isn't of its kind.
    BadValue { path: Text },
    /// The value stands at an earlier place already.
    Twice { path: Text },
    /// The value names nothing that is there.
    NoSuch { path: Text },
    /// The section has more rows than the limit, or the text more bytes.
    TooMany { path: Text, limit: u32 },
}

impl TablesFault {
    /// The fault's number, from 1 to 6 in the order of the variants.
    pub fn number(&self) -> u32
        ensures { result ≡ fault_number self.now }
    {
        match self {
            TablesFault::NotToml => 1,
            TablesFault::Missing { .. } => 2,
            TablesFault::BadValue { .. } => 3,
            TablesFault::Twice { .. } => 4,
            TablesFault::NoSuch { .. } => 5,
            TablesFault::TooMany { .. } => 6,
        }
    }

    /// Where the fault is, as `device[2].nwk_key`; empty exactly for `NotToml`.
    pub fn path(&self) -> &[u8]
        ensures { result.now ≡ fault_path self.now }
    {
        match self {
            TablesFault::NotToml => &[],
            TablesFault::Missing { path } => path.as_slice(),
            TablesFault::BadValue { path } => path.as_slice(),
            TablesFault::Twice { path } => path.as_slice(),
            TablesFault::NoSuch { path } => path.as_slice(),
            TablesFault::TooMany { path, .. } => path.as_slice(),
        }
    }
}

fn fault_of(why: Why, path: Text) -> TablesFault
    ensures { result ≡ fault_of why path }
{
    match why {
        Why::Missing => TablesFault::Missing { path },
        Why::BadValue => TablesFault::BadValue { path },
        Why::Twice => TablesFault::Twice { path },
        Why::NoSuch => TablesFault::NoSuch { path },
    }
}

fn key_path(alloc: Global, key: Key, place: Option<usize>) -> Result<String, AllocError>
    ensures { IfOk result (λ t. string_bytes t ≡ key_path key place) }
{
    let key = key.name();
    match place {
        None => String::from_str(alloc, key),
        Some(place) => format!(in alloc; "{key}[{place}]"),
    }
}

fn path_of(alloc: Global, section: &str, row: Option<usize>, key: &str) -> Result<Text, AllocError>
    ensures { IfOk result (λ t. t ≡ path_of section.now row key.now) }
{
    match row {
        None => Ok(Text::new(format!(in alloc; "{section}.{key}")?.into_bytes())),
        Some(row) => Ok(Text::new(format!(in alloc; "{section}[{row}].{key}")?.into_bytes())),
    }
}

/// The fault of a row, `section` alone where it has no number.
pub(crate) fn fault_in(
    alloc: Global,
    section: &'static str,
    row: Option<usize>,
    flaw: Flaw,
) -> Unread<TablesFault>
    ensures { IsFault (fault_in section.now row flaw) result }
{
    let Ok(key) = key_path(alloc, flaw.key, flaw.place) else {
        return Unread::Memory;
    };
    match path_of(alloc, section, row, key.as_str()) {
        Ok(path) => Unread::Refused(fault_of(flaw.why, path)),
        Err(_) => Unread::Memory,
    }
}

/// The fault of a whole section.
pub(crate) fn fault_at(alloc: Global, why: Why, section: &'static str) -> Unread<TablesFault>
    ensures { IsFault (fault_of why section.now) result }
{
    match Text::of_slice(alloc, section.as_bytes()) {
        Ok(path) => Unread::Refused(fault_of(why, path)),
        Err(_) => Unread::Memory,
    }
}

pub(crate) fn too_many(alloc: Global, section: &'static str, limit: u32) -> Unread<TablesFault>
    ensures { IsFault (fault.TooMany section.now limit) result }
{
    match Text::of_slice(alloc, section.as_bytes()) {
        Ok(path) => Unread::Refused(TablesFault::TooMany { path, limit }),
        Err(_) => Unread::Memory,
    }
}
