use crate::{AskOutcome, Change, NewAsk};
use wire_ids::{LongText, Moment, Sender, ShortText};

/// What happened, and when.
#[derive(Drop)]
pub struct Entry {
    pub moment: Moment,
    pub event: Event,
}

/// What happened.
#[derive(Drop)]
pub enum Event {
    /// The desk was opened, which closes all asks.
    Opened,
    /// The text of the tables file.
    Tables(LongText),
    /// A request was answered with Success and changed the state. Its answer is kept.
    Kept(Request, Change),
    /// A peer is asked.
    Asked(NewAsk),
    /// A peer's answer came, or none will.
    Told(AskOutcome),
    /// The device with this number makes no new session until it is resumed.
    Suspend(u32),
    /// The device with this number may make sessions again.
    Resume(u32),
}

/// A request and its answer, which is kept and given again where the same body comes again.
#[derive(Drop)]
pub struct Request {
    pub sender: Sender,
    pub body: ShortText,
    pub answer: ShortText,
}
