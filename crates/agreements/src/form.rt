ghost use Rattle.std.specs.Prelude.{◌≡◌, ◌≤◌, ℕ, List, [], IfSome, Option, option_map, map};
ghost use Rattle.std.specs.Borrow.{Bor};
ghost use Rattle.toml.specs.View.{view};
ghost use Rattle.toml.specs.Data.{Data, as_bool};
ghost use Rattle.toml.specs.declared.value.Value as toml_value;
ghost use Rattle.agreements.specs.Forms.{array_of, bytes_of, cf_list_of, dl_settings_of, eui_of};
ghost use Rattle.agreements.specs.Forms.{is_printable, net_of, number_of, passive_of, printable_of};
ghost use Rattle.agreements.specs.Steps.{Gives, at_key, need, or_else, read_as};

use crate::flaw::{Flaw, Why};
use crate::key::Key;
use crate::{Passive, Unread};
use hex::FromHex;
use std::alloc::Global;
use toml::Value;
use wire_ids::{Eui, NetId, Text, without_prefix};

/// What a value of the file can be read as.
pub(crate) trait Form: Sized {
    ghost form: { Data → Option Self };

    fn of(value: &Value) -> Option<Self>
        ensures { result ≡ form (view value.now) };
}

impl Form for Eui {
    ghost form = { eui_of };

    #[tactic(auto, unfolding(crate::specs::Forms::eui_of))]
    fn of(value: &Value) -> Option<Eui> {
        let text = value.as_str()?;
        Eui::from_hex(text.as_bytes()).ok()
    }
}

impl Form for NetId {
    ghost form = { net_of };

    #[tactic(auto, unfolding(crate::specs::Forms::net_of))]
    fn of(value: &Value) -> Option<NetId> {
        let text = value.as_str()?;
        NetId::from_hex(text.as_bytes()).ok()
    }
}

impl Form for bool {
    ghost form = { as_bool };

    fn of(value: &Value) -> Option<bool> {
        value.as_bool()
    }
}

impl<const N: usize> Form for [u8; N] {
    ghost form = { bytes_of N };

    #[tactic(auto, unfolding(crate::specs::Forms::bytes_of))]
    fn of(value: &Value) -> Option<[u8; N]> {
        let text = value.as_str()?;
        <[u8; N]>::from_hex(without_prefix(text.as_bytes())).ok()
    }
}

impl Form for Passive {
    ghost form = { passive_of };

    #[tactic(auto, unfolding(crate::specs::Forms::passive_of))]
    fn of(value: &Value) -> Option<Passive> {
        let text = value.as_str()?.as_bytes();
        if text == b"none".as_slice() {
            Some(Passive::Nothing)
        } else if text == b"stateless".as_slice() {
            Some(Passive::Stateless)
        } else if text == b"stateful".as_slice() {
            Some(Passive::Stateful)
        } else {
            None
        }
    }
}

/// A channel list, or none for an empty text.
impl Form for Option<[u8; 16]> {
    ghost form = { cf_list_of };

    #[tactic(auto, unfolding(crate::specs::Forms::cf_list_of))]
    fn of(value: &Value) -> Option<Option<[u8; 16]>> {
        let text = value.as_str()?;
        if without_prefix(text.as_bytes()).is_empty() {
            return Some(None);
        }
        let bytes = <[u8; 16]>::of(value)?;
        if bytes[15] == 0 {
            Some(Some(bytes))
        } else {
            None
        }
    }
}

pub(crate) fn member(row: &Value, key: Key) -> Option<&Value>
    ensures { option_map (λ (v : Bor toml_value.Value). view v.now) result
        ≡ at_key key (view row.now) }
{
    row.get(key.name())
}

// A value's form, or the refusal of its key.
pub(crate) fn read_as<T>(key: Key, found: Option<T>) -> Result<T, Unread<Flaw>>
    ensures { Gives result (read_as key found) }
{
    match found {
        Some(found) => Ok(found),
        None => Err(Unread::Refused(Flaw::at(Why::BadValue, key))),
    }
}

/// A key that must stand in the row.
pub(crate) fn need<T: Form>(row: &Value, key: Key) -> Result<T, Unread<Flaw>>
    ensures { Gives result (need key T.form (view row.now)) }
{
    match member(row, key) {
        Some(value) => read_as(key, T::of(value)),
        None => Err(Unread::Refused(Flaw::at(Why::Missing, key))),
    }
}

/// A key that has this value where it doesn't stand in the row.
pub(crate) fn or_else<T: Form + Drop>(row: &Value, key: Key, default: T) -> Result<T, Unread<Flaw>>
    ensures { Gives result (or_else default key T.form (view row.now)) }
{
    match member(row, key) {
        Some(value) => read_as(key, T::of(value)),
        None => Ok(default),
    }
}

#[tactic(auto, unfolding(crate::specs::Forms::dl_settings_of))]
fn dl_settings_of(value: &Value) -> Option<u8>
    ensures { result ≡ dl_settings_of (view value.now) }
{
    let bytes = <[u8; 1]>::of(value)?;
    let settings = bytes[0];
    if settings >= 128 && settings / 16 % 8 <= 5 {
        Some(settings)
    } else {
        None
    }
}

pub(crate) fn dl_settings(row: &Value, key: Key) -> Result<u8, Unread<Flaw>>
    ensures { Gives result (need key dl_settings_of (view row.now)) }
{
    match member(row, key) {
        Some(value) => read_as(key, dl_settings_of(value)),
        None => Err(Unread::Refused(Flaw::at(Why::Missing, key))),
    }
}

#[tactic(auto, unfolding(crate::specs::Forms::number_of))]
fn number_of(value: &Value, low: u32, high: u32) -> Option<u32>
    ensures value { result ≡ number_of low high (view value.now) }
    ensures bound { IfSome result (λ n. n ≤ high) }
{
    let number = value.as_integer()?;
    if number >= i64::from(low) && number <= i64::from(high) {
        Some(number as u32)
    } else {
        None
    }
}

/// A whole number of at most `high`.
pub(crate) fn small(row: &Value, key: Key, high: u8) -> Result<u8, Unread<Flaw>>
    ensures { Gives result (need key (number_of 0 high) (view row.now)) }
{
    let Some(value) = member(row, key) else {
        return Err(Unread::Refused(Flaw::at(Why::Missing, key)));
    };
    match number_of(value, 0, u32::from(high)) {
        Some(number) => Ok(number as u8),
        None => Err(Unread::Refused(Flaw::at(Why::BadValue, key))),
    }
}

/// A whole number from `low` to `high`, or `default` where it isn't there.
pub(crate) fn number_or(
    row: &Value,
    key: Key,
    low: u32,
    high: u32,
    default: u32,
) -> Result<u32, Unread<Flaw>>
    ensures { Gives result (or_else default key (number_of low high) (view row.now)) }
{
    match member(row, key) {
        Some(value) => read_as(key, number_of(value, low, high)),
        None => Ok(default),
    }
}

fn is_printable(text: &[u8]) -> bool
    ensures { result ≡ is_printable text.now }
{
    text.iter().all(|b| *b >= 33 && *b <= 126)
}

#[tactic(auto, unfolding(crate::specs::Forms::printable_of))]
fn printable_of(value: &Value, low: usize, high: usize) -> Option<&str>
    ensures { option_map (λ (text : Bor (List ℕ)). text.now) result
        ≡ printable_of low high (view value.now) }
{
    let text = value.as_str()?;
    let bytes = text.as_bytes();
    if bytes.len() >= low && bytes.len() <= high && is_printable(bytes) {
        Some(text)
    } else {
        None
    }
}

/// A text of `low` to `high` printable bytes.
pub(crate) fn text(
    alloc: Global,
    row: &Value,
    key: Key,
    low: usize,
    high: usize,
) -> Result<Text, Unread<Flaw>>
    ensures { Gives result (need key (printable_of low high) (view row.now)) }
{
    match member(row, key) {
        Some(value) => {
            let text = read_as(key, printable_of(value, low, high))?;
            Ok(Text::of_slice(alloc, text.as_bytes())?)
        }
        None => Err(Unread::Refused(Flaw::at(Why::Missing, key))),
    }
}

/// A text of at most `high` printable bytes, empty where it isn't there.
pub(crate) fn text_or_empty(
    alloc: Global,
    row: &Value,
    key: Key,
    high: usize,
) -> Result<Text, Unread<Flaw>>
    ensures { Gives result (or_else [] key (printable_of 0 high) (view row.now)) }
{
    match member(row, key) {
        Some(_) => text(alloc, row, key, 0, high),
        None => Ok(Text::new(Vec::new(alloc))),
    }
}

/// The values in an array.
pub(crate) fn array_of(value: &Value) -> Option<&[Value]>
    ensures { option_map (λ (values : Bor (List toml_value.Value)). map view values.now) result
        ≡ array_of (view value.now) }
{
    match value.as_array() {
        Some(values) => Some(values.as_slice()),
        None => None,
    }
}
