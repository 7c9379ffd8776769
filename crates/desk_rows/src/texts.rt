//! What the lines of a case file say: numbers, digits, and texts in their forms.

use crate::journal::{add_record, tables_entry};
use crate::refusal::Why;
use std::alloc::{AllocError, Global};
use std::str::FromStr;

/// A text that has a name, with its line end.
#[derive(Drop)]
struct Named {
    name: String,
    text: Vec<u8>,
}

/// The texts of a case file that have names.
#[derive(Drop)]
pub(crate) struct Texts {
    named: Vec<Named>,
}

impl Texts {
    /// None has a name yet.
    pub(crate) fn new(alloc: Global) -> Texts {
        Texts {
            named: Vec::new(alloc),
        }
    }

    /// Takes a name and its text, parted by a blank.
    pub(crate) fn add(&mut self, alloc: Global, said: &str) -> Result<(), Why> {
        let (name, text) = said.split_once(' ').unwrap_or((said, ""));
        self.named.push(Named {
            name: String::from_str(alloc, name)?,
            text: format!(in alloc; "{text}\n")?.into_bytes(),
        })?;
        Ok(())
    }

    // The text that had this name last.
    fn get(&self, name: &str) -> Option<&[u8]> {
        let found = self
            .named
            .iter()
            .rev()
            .find(|named| named.name.as_str() == name)?;
        Some(found.text.as_slice())
    }
}

/// The words of a text, parted by blanks. An empty text has none.
pub(crate) fn words(alloc: Global, text: &str) -> Result<Vec<String>, AllocError> {
    let mut words = Vec::new(alloc);
    if text.is_empty() {
        return Ok(words);
    }
    for word in text.split(' ') {
        words.push(String::from_str(alloc, word)?)?;
    }
    Ok(words)
}

/// The moments of a text, parted by blanks.
pub(crate) fn moments(alloc: Global, text: &str) -> Result<Vec<u64>, Why> {
    let mut moments = Vec::new(alloc);
    for moment in text.split(' ') {
        moments.push(number(moment)?)?;
    }
    Ok(moments)
}

/// The number that a text is.
pub(crate) fn number<N: FromStr + Drop>(text: &str) -> Result<N, Why>
where
    N::Err: Drop,
{
    text.parse().or(Err(Why::BadNumber))
}

/// The byte that two digits give.
pub(crate) fn byte(text: &str) -> Result<u8, Why> {
    let mut bytes = [0; 1];
    match hex::decode_to_slice(text, &mut bytes) {
        Ok(()) => Ok(bytes[0]),
        Err(_) => Err(Why::BadDigits),
    }
}

// The bytes of a text in hexadecimal, or of the text of this name.
fn digits(alloc: Global, texts: &Texts, said: &str) -> Result<Vec<u8>, Why> {
    let digits = match texts.get(said) {
        Some(text) => text.strip_suffix(b"\n").unwrap_or(text),
        None => said.as_bytes(),
    };
    hex::decode(alloc, digits).or(Err(Why::BadDigits))
}

/// What a text says in this form: a line with its end, a text without one, bytes in digits, or the
/// text of a name.
pub(crate) fn bytes_of(
    alloc: Global,
    texts: &Texts,
    form: &str,
    text: &str,
) -> Result<Vec<u8>, Why> {
    match form {
        "" => Ok(format!(in alloc; "{text}\n")?.into_bytes()),
        "-" => Ok(text.as_bytes().to_vec(alloc)?),
        "x" => digits(alloc, texts, text),
        "=" => match texts.get(text) {
            Some(text) => Ok(text.to_vec(alloc)?),
            None => Err(Why::NoText),
        },
        _ => Err(Why::UnknownWord),
    }
}

/// Adds bytes, so many times.
pub(crate) fn add(all: &mut Vec<u8>, times: usize, bytes: &[u8]) -> Result<(), Why> {
    for _ in 0..times {
        all.extend_from_slice(bytes)?;
    }
    Ok(())
}

/// Adds to the bytes of a disk, so many times: a record that stands in digits, the entry Tables of
/// a moment with this tables text, or a text in another form.
pub(crate) fn add_in_form(
    alloc: Global,
    texts: &Texts,
    tables: &[u8],
    form: &str,
    times: usize,
    said: &str,
    disk: &mut Vec<u8>,
) -> Result<(), Why> {
    let bytes = match form {
        "e" => digits(alloc, texts, said)?,
        "t" => tables_entry(alloc, number(said)?, tables)?,
        _ => return add(disk, times, &bytes_of(alloc, texts, form, said)?),
    };
    for _ in 0..times {
        add_record(disk, &bytes)?;
    }
    Ok(())
}
