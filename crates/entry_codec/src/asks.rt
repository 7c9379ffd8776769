//! The open asks, by number.

ghost use Rattle.std.specs.Prelude.{◌≡◌, ◌≤◌, ◌<◌, find, position, vec_capacity, vec_len};
ghost use Rattle.std.specs.List.{filter};
ghost use Rattle.entry_codec.specs.Machine.{has_number, is_open, is_other};

use crate::OpenAsk;

/// Those that end at this moment, or ended before, are closed.
pub(crate) fn lapse(asks: &mut Vec<OpenAsk>, at: u64)
    ensures items { asks.new.items ≡ filter (is_open at) asks.old.items }
    ensures capacity { vec_capacity asks.new ≡ vec_capacity asks.old }
{
    asks.retain(|ask| at < ask.ends.0);
}

fn place(asks: &[OpenAsk], number: u64) -> Option<usize>
    ensures { result ≡ position (has_number number) asks.now }
{
    asks.iter().position(|ask| ask.number == number)
}

// Takes out the first ask of this number, where there is one.
#[tactic(auto, using(crate::proofs::Places::none_found, crate::proofs::Places::pulled))]
fn pull(asks: &mut Vec<OpenAsk>, number: u64) -> Option<OpenAsk>
    ensures found { result ≡ find (has_number number) asks.old.items }
    ensures left { filter (is_other number) asks.new.items
        ≡ filter (is_other number) asks.old.items }
    ensures capacity { vec_capacity asks.new ≡ vec_capacity asks.old }
{
    match place(asks.as_slice(), number) {
        None => None,
        Some(at) => Some(asks.remove(at)),
    }
}

/// Closes the ask of this number.
pub(crate) fn close(asks: &mut Vec<OpenAsk>, number: u64)
    ensures items { asks.new.items ≡ filter (is_other number) asks.old.items }
    ensures capacity { vec_capacity asks.new ≡ vec_capacity asks.old }
{
    asks.retain(|ask| ask.number != number);
}

/// Closes the ask of this number and gives it out, so that its body is kept without a copy.
pub(crate) fn take_out(asks: &mut Vec<OpenAsk>, number: u64) -> Option<OpenAsk>
    ensures found { result ≡ find (has_number number) asks.old.items }
    ensures items { asks.new.items ≡ filter (is_other number) asks.old.items }
    ensures capacity { vec_capacity asks.new ≡ vec_capacity asks.old }
{
    let found = pull(asks, number);
    close(asks, number);
    found
}
