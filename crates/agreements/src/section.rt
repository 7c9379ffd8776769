ghost use Rattle.std.specs.Prelude.{◌≡◌, ◌≤◌, length, IfOk, IfErr, codes, is_some, map};
ghost use Rattle.std.specs.Prelude.{option_map, MatchResult, None, Some};
ghost use Rattle.std.specs.Borrow.{Bor};
ghost use Rattle.std.specs.List.{list_all};
ghost use Rattle.toml.specs.Data.{as_table, get_member};
ghost use Rattle.toml.specs.View.{table_view, view};
ghost use Rattle.toml.specs.declared.value.Value as toml_value;
ghost use Rattle.agreements.specs.Steps.{Gives, Stops};
ghost use Rattle.agreements.specs.Walk.{desk_at, document_of, rows_in, section_in, tables_at};

use crate::desk::read_desk;
use crate::fault::{TablesFault, fault_at, fault_in, too_many};
use crate::flaw::Why;
use crate::form::array_of;
use crate::reading::{ReadRow, read_rows};
use crate::{DeskRow, NamedRows, Unread};
use std::alloc::Global;
use toml::{Table, Value};

/// The table that the bytes are.
pub(crate) fn document(alloc: Global, text: &[u8]) -> Result<Table, Unread<TablesFault>>
    ensures ok { IfOk result (λ t. document_of text.now ≡ Some (table_view t)) }
    ensures err { IfErr result (Stops (tables_at (document_of text.now))) }
{
    match toml::table_from_slice(alloc, text) {
        Ok(table) => Ok(table),
        Err(error) => if error.is_memory() {
            Err(Unread::Memory)
        } else {
            Err(Unread::Refused(TablesFault::NotToml))
        },
    }
}

fn member<'a>(doc: &'a Table, name: &str) -> Option<&'a Value>
    ensures { option_map (λ (v : Bor toml_value.Value). view v.now) result
        ≡ get_member name.now (table_view doc.now) }
{
    doc.get(name)
}

fn is_each_table(values: &[Value]) -> bool
    ensures { result ≡ list_all (λ v. is_some (as_table (view v))) values.now }
{
    values.iter().all(|v| v.is_table())
}

fn are_tables(values: &[Value]) -> bool
    ensures { result ≡ list_all (λ d. is_some (as_table d)) (map view values.now) }
{
    is_each_table(values)
}

// The tables of a section, none where it isn't there.
fn section<'a>(
    alloc: Global,
    doc: &'a Table,
    name: &'static str,
    limit: u32,
) -> Result<&'a [Value], Unread<TablesFault>>
    ensures value { let read = section_in name.now limit
        (get_member name.now (table_view doc.now)) in
        MatchResult result (λ values. read ≡ Ok (map view values.now)) (Stops read) }
    ensures few { IfOk result (λ values. length values.now ≤ limit) }
{
    let Some(value) = member(doc, name) else {
        return Ok(&[]);
    };
    let Some(values) = array_of(value) else {
        return Err(fault_at(alloc, Why::BadValue, name));
    };
    if !are_tables(values) {
        return Err(fault_at(alloc, Why::BadValue, name));
    }
    if values.len() > limit as usize {
        return Err(too_many(alloc, name, limit));
    }
    Ok(values)
}

/// The rows of the section of this name, at most so many.
pub(crate) fn rows<S: ReadRow>(
    alloc: Global,
    doc: &Table,
    name: &'static str,
    limit: u32,
    reader: S,
) -> Result<NamedRows<S::Row>, Unread<TablesFault>>
    requires { limit ≤ 4096 }
    ensures { Gives result (rows_in name.now limit (S.row_in reader) (table_view doc.now)) }
{
    let values = match section(alloc, doc, name, limit) {
        Ok(values) => values,
        Err(stop) => return Err(stop),
    };
    match read_rows(alloc, &reader, values) {
        Ok(rows) => Ok(rows),
        Err(Unread::Refused((row, flaw))) => Err(fault_in(alloc, name, Some(row), flaw)),
        Err(Unread::Memory) => Err(Unread::Memory),
    }
}

/// The desk's own table.
pub(crate) fn desk(alloc: Global, doc: &Table) -> Result<DeskRow, Unread<TablesFault>>
    ensures { Gives result (desk_at (get_member (codes "desk") (table_view doc.now))) }
{
    let Some(value) = member(doc, "desk") else {
        return Err(fault_at(alloc, Why::Missing, "desk"));
    };
    if !value.is_table() {
        return Err(fault_at(alloc, Why::BadValue, "desk"));
    }
    match read_desk(alloc, value) {
        Ok(row) => Ok(row),
        Err(Unread::Refused(flaw)) => Err(fault_in(alloc, "desk", None, flaw)),
        Err(Unread::Memory) => Err(Unread::Memory),
    }
}
