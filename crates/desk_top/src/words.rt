ghost use Rattle.std.specs.Prelude.{◌≡◌, ◌↔◌, IsTrue, IfSome, IfNone};
ghost use Rattle.wire_ids.specs.declared.eui.Eui.{Eui as Name};
ghost use Rattle.desk_top.specs.declared.words.Command.{Command as Asked};
ghost use Rattle.desk_top.specs.Words.{HasEui, HasWord, Marks, Spells, SpellsNone, files};

use wire_ids::Eui;

/// What the program is asked to do.
#[derive(Clone, Copy, Debug, PartialEq, Eq)]
pub(crate) enum Command {
    /// Reads the tables and prints how many rows they have.
    Check,
    /// Answers the lines of the input.
    Answer,
    /// Suspends a device.
    Suspend(Eui),
    /// Resumes a device.
    Resume(Eui),
}

/// The places of the words that name files and addresses, and the number of workers, which is 0 for
/// a command without any.
#[derive(Clone, Copy, Debug, PartialEq, Eq)]
pub struct WordFiles {
    pub tables: Option<usize>,
    pub journal: Option<usize>,
    pub listen: Option<usize>,
    pub workers: u32,
}

/// Whether the word at this place is this one.
pub fn has_word(words: &[String], at: usize, word: &str) -> bool
    ensures { IsTrue result ↔ HasWord words.now at word.now }
{
    match words.get(at) {
        Some(found) => found.as_str() == word,
        None => false,
    }
}

// The EUI that the word at this place reads as.
fn eui_at(words: &[String], at: usize) -> Option<Eui>
    ensures found { IfSome result (HasEui words.now at) }
    ensures none { IfNone result ((eui : Name) → HasEui words.now at eui → ⊥) }
{
    match words.get(at) {
        Some(found) => Eui::from_hex(found.as_bytes()).ok(),
        None => None,
    }
}

// The EUI of the device that the words mark by this command.
fn marked(words: &[String], command: &str) -> Option<Eui>
    ensures found { IfSome result (Marks words.now command.now) }
    ensures none { IfNone result ((eui : Name) → Marks words.now command.now eui → ⊥) }
{
    if words.len() == 6
        && has_word(words, 0, command)
        && has_word(words, 1, "--tables")
        && has_word(words, 3, "--journal")
    {
        return eui_at(words, 5);
    }
    None
}

// The mark that the words spell.
fn mark_of(words: &[String]) -> Option<Command>
    ensures found { IfSome result (Spells words.now) }
    ensures none { IfNone result ((eui : Name) → (Spells words.now (Asked.Suspend eui) → ⊥)
        × (Spells words.now (Asked.Resume eui) → ⊥)) }
{
    match marked(words, "suspend") {
        Some(eui) => Some(Command::Suspend(eui)),
        None => match marked(words, "resume") {
            Some(eui) => Some(Command::Resume(eui)),
            None => None,
        },
    }
}

// Whether the words are `check --tables PATH`.
fn is_check(words: &[String]) -> bool
    ensures { IsTrue result ↔ Spells words.now Asked.Check }
{
    words.len() == 3 && has_word(words, 0, "check") && has_word(words, 1, "--tables")
}

// Whether the words are `answer --tables PATH --journal PATH`.
fn is_answer(words: &[String]) -> bool
    ensures { IsTrue result ↔ Spells words.now Asked.Answer }
{
    words.len() == 5
        && has_word(words, 0, "answer")
        && has_word(words, 1, "--tables")
        && has_word(words, 3, "--journal")
}

// The command that the words spell.
pub(crate) fn command_of(words: &[String]) -> Option<Command>
    ensures found { IfSome result (Spells words.now) }
    ensures none { IfNone result (SpellsNone words.now) }
{
    if is_check(words) {
        return Some(Command::Check);
    }
    if is_answer(words) {
        return Some(Command::Answer);
    }
    match mark_of(words) {
        Some(command) => Some(command),
        None => None,
    }
}

/// What a caller of `run` prepares for these words, or None exactly where they are no command:
/// `check --tables PATH`, or `answer --tables PATH --journal PATH`, or `suspend` or `resume` with
/// the same two options and the DevEUI behind them, in 16 hexadecimal digits.
pub fn files_of(words: &[String]) -> Option<WordFiles>
    ensures found { IfSome result (λ found. (command : Asked) × Spells words.now command
        × (found ≡ files command)) }
    ensures none { IfNone result (SpellsNone words.now) }
{
    let journal = match command_of(words)? {
        Command::Check => None,
        Command::Answer | Command::Suspend(_) | Command::Resume(_) => Some(4),
    };
    Some(WordFiles {
        tables: Some(2),
        journal,
        listen: None,
        workers: 0,
    })
}
