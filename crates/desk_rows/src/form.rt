use crate::case::Case;
use crate::draft::Draft;
use crate::folder::Folder;
use crate::refusal::{Refused, Why};
use crate::texts::Texts;

/// The cases of a file's text, in order.
pub(crate) fn read_cases(folder: Folder<'_>, text: &str) -> Result<Vec<Case>, Refused> {
    let mut cases = Vec::new(folder.alloc());
    let mut draft = None;
    let mut texts = Texts::new(folder.alloc());
    let mut at: usize = 0;
    for line in text.split('\n') {
        at = at.saturating_add(1);
        if let Err(why) = take_line(folder, line, &mut texts, &mut draft, &mut cases) {
            return Err(Refused { line: at, why });
        }
    }
    match finish(&mut draft, &mut cases) {
        Ok(()) => Ok(cases),
        Err(why) => Err(Refused { line: at, why }),
    }
}

// Takes a line into the case at hand. A line `case` ends that one and begins another, and a line
// `text` belongs to the file.
fn take_line(
    folder: Folder<'_>,
    line: &str,
    texts: &mut Texts,
    draft: &mut Option<Draft>,
    cases: &mut Vec<Case>,
) -> Result<(), Why> {
    if line.is_empty() || line.starts_with('#') {
        return Ok(());
    }
    let (word, said) = line.split_once(' ').unwrap_or((line, ""));
    if word == "text" {
        return texts.add(folder.alloc(), said);
    }
    if word == "case" {
        finish(draft, cases)?;
        *draft = Some(Draft::new(folder.alloc(), said)?);
        return Ok(());
    }
    match draft {
        Some(draft) => draft.add(folder, texts, word, said),
        None => Err(Why::NoCase),
    }
}

// Puts the case at hand behind the others.
fn finish(draft: &mut Option<Draft>, cases: &mut Vec<Case>) -> Result<(), Why> {
    if let Some(draft) = draft.take() {
        cases.push(draft.into_case()?)?;
    }
    Ok(())
}
