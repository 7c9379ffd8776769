ghost use Rattle.std.specs.Prelude.{◌≡◌, ◌+◌, ◌∷◌, [], map, IfOk, IfSome, Some};
ghost use Rattle.entries.specs.Entries.{decode_of, encode_of};
ghost use Rattle.book.specs.Pages.{bytes_in, entry_in};

use crate::draft::Draft;
use entries::Entry;
use std::alloc::Global;
use wire_ids::Memory;

/// A list of this one entry. The one error is want of memory.
pub(crate) fn drafts_of(alloc: Global, entry: Entry) -> Result<Vec<Draft>, Memory>
    ensures one { IfOk result (λ drafts. map entry_in drafts.items ≡ entry ∷ []) }
    ensures again { IfOk result (λ _. decode_of (encode_of entry) ≡ Some entry) }
{
    let draft = Draft::new(alloc, entry)?;
    let mut drafts = Vec::with_capacity(alloc, 1)?;
    drafts.push_reserved(draft);
    Ok(drafts)
}

/// How many bytes the drafts have together, where that is a number.
pub(crate) fn total(drafts: &[Draft]) -> Option<u64>
    ensures { IfSome result (λ n. n ≡ bytes_in (map entry_in drafts.now)) }
{
    let mut total = 0u64;
    for draft in drafts {
        total = total.checked_add(draft.bytes.len() as u64)?;
    }
    Some(total)
}
