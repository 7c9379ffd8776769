ghost use Rattle.std.specs.Prelude.{◌≡◌, ◌≢◌, ◌+◌, ◌-◌, ◌≤◌, [], ◌∷◌, ◌++◌, List, ℕ, length, take};
ghost use Rattle.std.specs.Prelude.{IfOk, IfErr, IfSome, IfNone, OnOk, OnErr, IsErrOf};
ghost use Rattle.std.specs.Io.KnownBytes.{Consumes, Keeps, IsAtEnd};
ghost use Rattle.wire_ids.specs.Causes.{Rose};
ghost use Rattle.line_reader.specs.Ahead.{budget, coming, TakesCount};
ghost use Rattle.line_reader.specs.Hearing.{HearsLine, IsEnd, Spends, StopsBehind, StopsInLine};
ghost use Rattle.line_reader.specs.Hearing.{UsesUp};
ghost use Rattle.line_reader.specs.Held.{IsLineEnd, SaysRest};
ghost use Rattle.line_reader.specs.Lines.{HasNoBreak};
ghost use Rattle.line_reader.specs.declared.fault.LineFault.TheVariants.{TooMuch};

use crate::{Ahead, LineFault};
use disk_model::Source;
use memchr::memchr;
use std::alloc::{AllocError, Global};
use wire_ids::Text;

/// The byte that ends a line, LF.
const LINE_END: u8 = 10;

/// How many bytes a line may have. Of a longer one the first 8,193 bytes are given.
pub const LINE_LIMIT: usize = 8192;

/// What comes next.
#[derive(Drop)]
pub enum Heard {
    /// A line without the byte that ends it. Of one that is longer than `LINE_LIMIT`, its first
    /// 8,193 bytes.
    Line(Text),
    /// The end of the input.
    End,
}

// Adds a piece to what is held of a line, as far as it counts.
#[tactic(auto, using(std::proofs::lemmas::List::take_min))]
fn hold(text: &mut Vec<u8>, piece: &[u8]) -> Result<(), AllocError>
    ensures { OnOk result (text.new.items ≡ text.old.items
        ++ take (8193 - length text.old.items) piece.now) }
{
    let room = (LINE_LIMIT + 1).saturating_sub(text.len());
    text.extend_from_slice(&piece[..room.min(piece.len())])
}

// What is heard where no more comes.
fn rest(text: Vec<u8>) -> Heard
    ensures { (line : List ℕ) → text.items ≡ take 8193 line → SaysRest result line }
{
    if text.is_empty() {
        return Heard::End;
    }
    Heard::Line(Text::new(text))
}

// The place of the byte that ends a line.
fn line_end(piece: &[u8]) -> Option<usize>
    ensures found { IfSome result (IsLineEnd piece.now) }
    ensures none { IfNone result (HasNoBreak piece.now) }
{
    memchr(LINE_END, piece)
}

// Makes sure that some bytes are there, if any are left.
fn stock<T: Source>(ahead: &mut Ahead, source: &mut T) -> Result<(), LineFault>
    requires allowed { ahead.old.taken ≤ ahead.old.limit }

    ensures coming { OnOk result
        (Keeps (coming ahead.old (T.left source.old)) (coming ahead.new (T.left source.new))) }
    ensures end { OnOk result (ahead.new.pending ≡ [] → IsAtEnd (T.left source.new)) }
    ensures taken { TakesCount (T.left source.old) (T.left source.new)
        ahead.old.taken ahead.new.taken }
    ensures within { OnOk result (ahead.new.taken ≤ ahead.new.limit) }
    ensures limit { ahead.new.limit ≡ ahead.old.limit }
    ensures budget { OnOk result (budget ahead.new ≡ budget ahead.old) }

    ensures none { OnErr result (ahead.old.pending ≡ []) }
    ensures failed { IsErrOf result LineFault.Failed
        → Rose (T.faults source.old) (T.faults source.new) }
    ensures too_much { IsErrOf result LineFault.TooMuch → ahead.new.taken ≡ ahead.new.limit + 1 }
    ensures keeps { IfErr result
        (λ e. e ≢ TooMuch → Keeps (T.left source.old) (T.left source.new)) }
    ensures same { IfErr result (λ e. e ≢ TooMuch → ahead.new.taken ≡ ahead.old.taken) }
    ensures one_more { IsErrOf result LineFault.TooMuch → (byte : ℕ)
        × Consumes (T.left source.old) (T.left source.new) (byte ∷ []) }
    ensures count { T.faults source.old ≤ T.faults source.new }
{
    if ahead.piece().is_empty() {
        ahead.take(source)?;
    }
    Ok(())
}

/// The next line of what comes, and `Heard::End` where nothing comes. A line ends before a byte LF
/// or at the end of the input, where an empty one doesn't count; a CR is a byte of the line. Where
/// the limit of the input has been taken and used up, one more byte is read: it makes the
/// difference between the end of the input and `LineFault::TooMuch`. After an error the line in
/// hand is lost.
pub fn next_line<T: Source>(
    alloc: Global,
    ahead: &mut Ahead,
    source: &mut T,
) -> Result<Heard, LineFault>
    requires allowed { ahead.old.taken ≤ ahead.old.limit }

    ensures line { IfOk result (λ heard. HearsLine (coming ahead.old (T.left source.old)) heard
        (coming ahead.new (T.left source.new))) }
    ensures used { IfOk result (λ heard. UsesUp (coming ahead.old (T.left source.old)) heard
        (coming ahead.new (T.left source.new))) }
    // It goes on.
    ensures spends { IfOk result (λ heard. Spends heard (budget ahead.old) (budget ahead.new)) }

    // At the end nothing is left.
    ensures end { IfOk result (λ heard. IsEnd heard → IsAtEnd (T.left source.new)) }

    ensures taken { TakesCount (T.left source.old) (T.left source.new)
        ahead.old.taken ahead.new.taken }
    ensures limit { ahead.new.limit ≡ ahead.old.limit }
    ensures within { OnOk result (ahead.new.taken ≤ ahead.new.limit) }

    // More was taken only where it is said, and then one byte more.
    ensures over { IfErr result (λ e. e ≢ TooMuch → ahead.new.taken ≤ ahead.new.limit) }
    ensures too_much { IsErrOf result LineFault.TooMuch → ahead.new.taken ≡ ahead.new.limit + 1 }

    // No line with an end among the bytes that were taken is lost.
    ensures failed_in_line { IsErrOf result LineFault.Failed
        → StopsInLine (coming ahead.old (T.left source.old)) (T.left source.new) }
    ensures stops_behind { IsErrOf result LineFault.TooMuch
        → StopsBehind (coming ahead.old (T.left source.old)) (T.left source.new) }

    ensures failed { IsErrOf result LineFault.Failed
        → Rose (T.faults source.old) (T.faults source.new) }
    ensures count { T.faults source.old ≤ T.faults source.new }
{
    let mut text = Vec::new(alloc);
    'pieces: loop {
        stock(ahead, source)?;
        let piece = ahead.piece();
        if piece.is_empty() {
            return Ok(rest(text));
        }
        match line_end(piece) {
            Some(count) => {
                hold(&mut text, &piece[..count])?;
                ahead.pass(count + 1);
                return Ok(Heard::Line(Text::new(text)));
            }
            None => {
                let count = piece.len();
                hold(&mut text, piece)?;
                ahead.pass(count);
            }
        }
    }
}
