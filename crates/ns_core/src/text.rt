ghost use Rattle.std.specs.Prelude.{◌≡◌, IfOk};

use std::alloc::Global;
use wire_ids::{Memory, ShortText};

/// These bytes, as an entry holds them, which are far fewer than it has room for.
pub(crate) fn short_copy(alloc: Global, bytes: &[u8]) -> Result<ShortText, Memory>
    ensures { IfOk result (λ short. short ≡ bytes.now) }
{
    match ShortText::of_slice(alloc, bytes)? {
        Some(short) => Ok(short),
        None => Err(Memory),
    }
}
