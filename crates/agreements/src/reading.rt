ghost use Rattle.std.specs.Prelude.{◌≡◌, ◌≤◌, ℕ, List, [], Result, false, length, map, IfOk};
ghost use Rattle.toml.specs.Data.{Data};
ghost use Rattle.toml.specs.View.{view};
ghost use Rattle.agreements.specs.Index.{has_name};
ghost use Rattle.agreements.specs.Steps.{Gives, all_after, numbered};
ghost use Rattle.agreements.specs.declared.flaw.Flaw as flaws;

use crate::flaw::Flaw;
use crate::{Named, NamedRows, Unread};
use std::alloc::Global;
use toml::Value;

/// How the rows of a section are read, each against the rows before it.
pub(crate) trait ReadRow: Drop {
    type Row: Named;

    ghost row_in: { Self → List Self.Row → Data → Result Self.Row flaws.Flaw };

    fn read_row(
        &self,
        alloc: Global,
        before: &NamedRows<Self::Row>,
        value: &Value,
    ) -> Result<Self::Row, Unread<Flaw>>
        ensures value { Gives result (row_in self.now before.now (view value.now)) }
        ensures new { IfOk result
            (λ row. has_name Self.Row.name (Self.Row.name row) before.now ≡ false) };
}

/// The rows that the values are, or the first flaw with the number of its row.
pub(crate) fn read_rows<S: ReadRow>(
    alloc: Global,
    section: &S,
    values: &[Value],
) -> Result<NamedRows<S::Row>, Unread<(usize, Flaw)>>
    requires { length values.now ≤ 4096 }
    ensures { Gives result
        (all_after (numbered (S.row_in section.now)) [] (map view values.now)) }
{
    let mut rows = NamedRows::new(alloc);
    for value in values {
        match section.read_row(alloc, &rows, value) {
            Ok(row) => rows.push(row)?,
            Err(Unread::Refused(flaw)) => {
                return Err(Unread::Refused((rows.as_slice().len(), flaw)));
            }
            Err(Unread::Memory) => return Err(Unread::Memory),
        }
    }
    Ok(rows)
}
