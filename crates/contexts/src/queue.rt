ghost use Rattle.std.specs.Prelude.{◌≡◌, OnErr, OnOk};
ghost use Rattle.std.specs.Option.{option_copied};
ghost use Rattle.std.specs.Result.{result_err};
ghost use Rattle.contexts.specs.Queue.{confirmed_by, drawn, first_of, item_fault, next_of};
ghost use Rattle.contexts.specs.Queue.{pushed, taken};
ghost use Rattle.contexts.specs.Sound.{IsSoundContext};

use crate::{Context, Item};

/// Why an item is not put into the queue, in the order in which the causes are tried.
#[derive(Clone, Copy, Debug, PartialEq, Eq)]
pub enum ItemFault {
    /// Its number is below the next one.
    Counter,
    /// 8 items wait.
    QueueFull,
}

/// Puts an item last into the queue, after which the next number is the item's plus 1. `Counter`
/// comes exactly where the item's number is below the next one, and else `QueueFull` exactly
/// where 8 items wait; the context is then as before.
pub fn push_item(ctx: &mut Context, item: Item) -> Result<(), ItemFault>
    ensures fault { result_err result ≡ item_fault item ctx.old }
    ensures pushed { OnOk result (ctx.new ≡ pushed item ctx.old) }
    ensures stays { OnErr result (ctx.new ≡ ctx.old) }
    ensures sound { IsSoundContext ctx.old → IsSoundContext ctx.new }
{
    let number = u64::from(item.number);
    if number < ctx.next_a {
        return Err(ItemFault::Counter);
    }
    if ctx.queue.is_full() {
        return Err(ItemFault::QueueFull);
    }
    ctx.next_a = number + 1;
    ctx.queue.push(item);
    Ok(())
}

/// Draws the next NFCntDown number. None comes exactly where the next one is 2^32; the context is
/// then as before.
pub fn next_down(ctx: &mut Context) -> Option<u32>
    ensures number { result ≡ next_of ctx.old }
    ensures drawn { ctx.new ≡ drawn ctx.old }
    ensures sound { IsSoundContext ctx.old → IsSoundContext ctx.new }
{
    if ctx.next_n >= 1 << 32 {
        return None;
    }
    let number = ctx.next_n as u32;
    ctx.next_n += 1;
    Some(number)
}

/// The item that waits longest, None exactly where none waits.
pub fn first_item(ctx: &Context) -> Option<&Item>
    ensures { option_copied result ≡ first_of ctx.now }
{
    ctx.queue.as_slice().first()
}

// The last confirmed number, once the item was sent.
fn confirmed_by(item: &Item, last: Option<u16>) -> Option<u16>
    ensures { result ≡ confirmed_by item.now last }
{
    if item.confirmed {
        Some((item.number % 0x1_0000) as u16)
    } else {
        last
    }
}

/// Takes out the item that waits longest, None exactly where none waits. The number of a confirmed
/// one is then the last confirmed number, modulo 2^16.
pub fn take_item(ctx: &mut Context) -> Option<Item>
    ensures item { result ≡ first_of ctx.old }
    ensures taken { ctx.new ≡ taken ctx.old }
    ensures sound { IsSoundContext ctx.old → IsSoundContext ctx.new }
{
    if ctx.queue.is_empty() {
        return None;
    }
    let item = ctx.queue.remove(0);
    ctx.conf = confirmed_by(&item, ctx.conf);
    Some(item)
}
