//! Strings, digits and numbers as they stand in JSON.

ghost use Rattle.std.specs.Prelude.{◌≡◌, ◌<◌, ◌≤◌, ◌*◌, ◌++◌, length, OnOk, IsTrue};
ghost use Rattle.std.specs.Char.{digit_char};
ghost use Rattle.hex.specs.Hex.{encode_lower};
ghost use Rattle.json.specs.Print.{escape, escape_byte, escape_letter, quoted};
ghost use Rattle.serde_json.specs.Data.{number, unsigned};
ghost use Rattle.serde_json.specs.Written.{compact_text};

use std::alloc::AllocError;

// The digit of a number below 16.
fn digit(number: u8) -> u8
    requires { number < 16 }
    ensures { result ≡ digit_char number }
{
    if number < 10 {
        b'0' + number
    } else {
        b'a' + (number - 10)
    }
}

// The letter of a byte's short escape, or 0 where it has none.
fn letter(byte: u8) -> u8
    ensures { result ≡ escape_letter byte }
{
    match byte {
        b'"' | b'\\' => byte,
        8 => b'b',
        12 => b'f',
        b'\n' => b'n',
        b'\r' => b'r',
        b'\t' => b't',
        _ => 0,
    }
}

// Writes the byte as it stands in a string.
#[tactic(auto, unfolding(json::specs::Print::escape_byte))]
fn put_escaped(out: &mut Vec<u8>, byte: u8) -> Result<(), AllocError>
    ensures { OnOk result (out.new.items ≡ out.old.items ++ escape_byte byte) }
{
    let letter = letter(byte);
    if letter > 0 {
        return out.extend_from_slice(&[b'\\', letter]);
    }
    if byte < 0x20 {
        return out.extend_from_slice(&[
            b'\\',
            b'u',
            b'0',
            b'0',
            digit(byte / 16),
            digit(byte % 16),
        ]);
    }
    out.extend_from_slice(&[byte])
}

// Whether each byte stands in a string as it is. It looks at all of them: many at once, then.
fn is_plain(text: &[u8]) -> bool
    ensures { IsTrue result → escape text.now ≡ text.now }
{
    let mut plain = true;
    for byte in text {
        plain &= (*byte >= 0x20) & (*byte != b'"') & (*byte != b'\\');
    }
    plain
}

// Writes the text as it stands in a string.
fn put_escapes(out: &mut Vec<u8>, text: &[u8]) -> Result<(), AllocError>
    ensures { OnOk result (out.new.items ≡ out.old.items ++ escape text.now) }
{
    if is_plain(text) {
        return out.extend_from_slice(text);
    }
    for byte in text {
        put_escaped(out, *byte)?;
    }
    Ok(())
}

/// Writes a string.
pub(crate) fn put_string(out: &mut Vec<u8>, text: &[u8]) -> Result<(), AllocError>
    ensures { OnOk result (out.new.items ≡ out.old.items ++ quoted text.now) }
{
    out.extend_from_slice(b"\"")?;
    put_escapes(out, text)?;
    out.extend_from_slice(b"\"")
}

/// Writes two texts as one string.
pub(crate) fn put_strings(out: &mut Vec<u8>, first: &[u8], second: &[u8]) -> Result<(), AllocError>
    ensures { OnOk result (out.new.items
        ≡ out.old.items ++ quoted (first.now ++ second.now)) }
{
    out.extend_from_slice(b"\"")?;
    put_escapes(out, first)?;
    put_escapes(out, second)?;
    out.extend_from_slice(b"\"")
}

// Makes the lower-case digits of bytes, as they stand in a string.
fn make_digits(bytes: &[u8], digits: &mut [u8])
    requires { length digits.old ≡ 2 * length bytes.now }
    ensures { digits.new ≡ escape (encode_lower bytes.now) }
{
    let _ = hex::encode_to_slice(bytes, digits);
}

// Writes the lower-case digits of at most 32 bytes.
fn put_block(out: &mut Vec<u8>, bytes: &[u8]) -> Result<(), AllocError>
    requires { length bytes.now ≤ 32 }
    ensures { OnOk result (out.new.items ≡ out.old.items ++ escape (encode_lower bytes.now)) }
{
    let mut room = [0; 64];
    let digits = &mut room[..2 * bytes.len()];
    make_digits(bytes, digits);
    out.extend_from_slice(digits)
}

// Writes the lower-case digits of bytes, 32 after 32.
fn put_digits(out: &mut Vec<u8>, bytes: &[u8]) -> Result<(), AllocError>
    ensures { OnOk result (out.new.items ≡ out.old.items ++ escape (encode_lower bytes.now)) }
{
    if bytes.len() <= 32 {
        return put_block(out, bytes);
    }
    let (front, rest) = bytes.split_at(32);
    put_block(out, front)?;
    put_digits(out, rest)
}

/// Writes bytes as a string of lower-case digits.
pub(crate) fn put_hex(out: &mut Vec<u8>, bytes: &[u8]) -> Result<(), AllocError>
    ensures { OnOk result (out.new.items ≡ out.old.items ++ quoted (encode_lower bytes.now)) }
{
    out.extend_from_slice(b"\"")?;
    put_digits(out, bytes)?;
    out.extend_from_slice(b"\"")
}

/// Writes a number.
pub(crate) fn put_number(out: &mut Vec<u8>, n: u32) -> Result<(), AllocError>
    ensures { OnOk result (out.new.items ≡ out.old.items ++ compact_text (number (unsigned n))) }
{
    let mut buffer = itoa::Buffer::new();
    out.extend_from_slice(buffer.format(n).as_bytes())
}
