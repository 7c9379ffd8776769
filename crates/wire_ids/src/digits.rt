ghost use Rattle.std.specs.Prelude.{◌≡◌};
ghost use Rattle.wire_ids.specs.Digits.{id_bytes, without_prefix};

use crate::IdFault;
use hex::{FromHex, FromHexError};

/// The text behind one leading `0x` or `0X`, or the whole text where it begins with neither: the
/// digits of every hexadecimal text that is read (TS002-1.1.0).
pub fn without_prefix(text: &[u8]) -> &[u8]
    ensures { result.now ≡ without_prefix text.now }
{
    if text.len() >= 2 && text[0] == b'0' && (text[1] == b'x' || text[1] == b'X') {
        &text[2..]
    } else {
        text
    }
}

// The bytes that the digits behind an optional `0x` or `0X` write.
#[tactic(auto, unfolding(crate::specs::Digits::id_bytes))]
pub(crate) fn id_bytes<const N: usize>(text: &[u8]) -> Result<[u8; N], IdFault>
    ensures { result ≡ id_bytes N text.now }
{
    let digits = without_prefix(text);
    match <[u8; N]>::from_hex(digits) {
        Ok(bytes) => Ok(bytes),
        Err(FromHexError::InvalidHexCharacter { index, .. }) => {
            Err(IdFault::BadDigit { place: index })
        }
        Err(_) => Err(IdFault::BadLength { got: digits.len() }),
    }
}
