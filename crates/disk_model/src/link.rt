ghost use Rattle.std.specs.Prelude.{◌≡◌, ◌≤◌, List, ℕ, [], ◌∷◌, ◌++◌, Option, Some, None, length};
ghost use Rattle.std.specs.Prelude.{take, IsErrOf, IfOk, IfErr, OnOk, OnErr};
ghost use Rattle.wire_ids.specs.Causes.{Rose};
ghost use Rattle.disk_model.specs.Asking.{Asks, Answers};
ghost use Rattle.disk_model.specs.declared.link.Asked.{Asked as Question};

use crate::Failed;
use crate::faults::one_more;
use std::alloc::{AllocError, Global};
use wire_ids::{PeerId, Text};

/// Why a peer gave no answer.
#[derive(Clone, Copy, Debug, PartialEq, Eq)]
pub enum LinkFault {
    /// The link failed. Its count of faults has risen.
    Failed,
    /// Want of memory.
    Memory,
}

impl From<AllocError> for LinkFault {
    ghost use Rattle.disk_model.specs.declared.link.LinkFault.TheVariants.{Memory};

    ghost from_gives = { λ _ e. e ≡ Memory };

    fn from(_: AllocError) -> Self {
        LinkFault::Memory
    }
}

/// What a peer was asked.
#[derive(Drop)]
pub struct Asked {
    pub peer: PeerId,
    pub body: Text,
}

/// How long an answer may be before it is cut: its first 8,193 bytes are then given.
const ANSWER_ROOM: usize = 8193;

/// Asks peers.
pub trait Link {
    /// Whom it was asked what, in order, where it tells.
    ghost asked: { Self → Option (List Question) };

    /// The answers that it gives next, and None for each failure, where it tells.
    ghost script: { Self → Option (List (Option (List ℕ))) };

    /// How often it has failed. The count stands still at 2^64 - 1.
    ghost faults: { Self → ℕ };

    /// Asks the peer, and replaces `answer` by what it says, cut behind its first 8,193 bytes.
    /// After an error what `answer` holds isn't told.
    fn ask(
        &mut self,
        alloc: Global,
        peer: PeerId,
        body: &[u8],
        answer: &mut Vec<u8>,
    ) -> Result<(), LinkFault>
        ensures asked { Asks (asked self.old) (asked self.new)
            (record { peer = peer; body = body.now }) result }
        ensures answers { Answers (script self.old) (script self.new) answer.new.items result }
        ensures short { IfOk result (λ _. length answer.new.items ≤ 8193) }
        ensures failed { IsErrOf result LinkFault.Failed
            → Rose (faults self.old) (faults self.new) }
        ensures later { faults self.old ≤ faults self.new };
}

/// Gives the answers and failures of a list in order, and then fails at each call. It tells what it
/// was asked.
#[derive(Drop)]
pub struct ScriptLink {
    script: Vec<Option<Text>>,
    at: usize,
    asked: Vec<Asked>,
    faults: u64,
    ghost within: { at ≤ length script.items },
}

impl ScriptLink {
    ghost use Rattle.disk_model.specs.Script.{link_asked, link_faults, link_script};

    /// A link that gives these answers, and fails where there is None. It was asked nothing yet.
    pub fn new(alloc: Global, script: Vec<Option<Text>>) -> ScriptLink
        ensures script { link_script result ≡ script.items }
        ensures asked { link_asked result ≡ [] }
        ensures faults { link_faults result ≡ 0 }
    {
        ScriptLink {
            script,
            at: 0,
            asked: Vec::new(alloc),
            faults: 0,
        }
    }

    /// What it was asked, in order.
    pub fn asked(&self) -> &[Asked]
        ensures { result.now ≡ link_asked self.now }
    {
        self.asked.as_slice()
    }

    /// How often it has failed.
    pub fn faults(&self) -> u64
        ensures { result ≡ link_faults self.now }
    {
        self.faults
    }
}

impl Link for ScriptLink {
    ghost use Rattle.disk_model.specs.Script.{link_asked, link_faults, link_script};

    ghost asked = { λ l. Some (link_asked l) };

    ghost script = { λ l. Some (link_script l) };

    ghost faults = { link_faults };

    fn ask(
        &mut self,
        alloc: Global,
        peer: PeerId,
        body: &[u8],
        answer: &mut Vec<u8>,
    ) -> Result<(), LinkFault>
        ensures asked { Asks (Some (link_asked self.old)) (Some (link_asked self.new))
            (record { peer = peer; body = body.now }) result }
        ensures answers { Answers (Some (link_script self.old)) (Some (link_script self.new))
            answer.new.items result }
        ensures short { IfOk result (λ _. length answer.new.items ≤ 8193) }
        ensures failed { IsErrOf result LinkFault.Failed
            → Rose (link_faults self.old) (link_faults self.new) }
        ensures later { link_faults self.old ≤ link_faults self.new }
        ensures stays { OnOk result (link_faults self.new ≡ link_faults self.old) }
        ensures memory { IsErrOf result LinkFault.Memory
            → link_faults self.new ≡ link_faults self.old }
    {
        note(&mut self.asked, alloc, peer, body)?;
        let Some(next) = self.script.get(self.at) else {
            self.faults = one_more(self.faults);
            return Err(LinkFault::Failed);
        };
        self.at += 1;
        let Some(text) = next else {
            self.faults = one_more(self.faults);
            return Err(LinkFault::Failed);
        };
        replace(answer, cut(text.as_slice()))
    }
}

// Puts what a peer is asked behind what was asked before.
fn note(asked: &mut Vec<Asked>, alloc: Global, peer: PeerId, body: &[u8]) -> Result<(), AllocError>
    ensures ok { OnOk result (asked.new.items ≡ asked.old.items
        ++ record { peer = peer; body = body.now } ∷ []) }
    ensures err { OnErr result (asked.new.items ≡ asked.old.items) }
{
    let body = Text::new(body.to_vec(alloc)?);
    asked.push(Asked { peer, body })?;
    Ok(())
}

// The front of what a peer says, as long as an answer may be.
#[tactic(auto, using(std::proofs::lemmas::List::take_min))]
fn cut(text: &[u8]) -> &[u8]
    ensures front { result.now ≡ take 8193 text.now }
    ensures short { length result.now ≤ 8193 }
{
    &text[..ANSWER_ROOM.min(text.len())]
}

// Puts the text in place of the answer.
fn replace(answer: &mut Vec<u8>, text: &[u8]) -> Result<(), LinkFault>
    ensures ok { OnOk result (answer.new.items ≡ text.now) }
    ensures err { IfErr result (λ e. e ≡ LinkFault.Memory) }
{
    answer.clear();
    answer.extend_from_slice(text)?;
    Ok(())
}

/// A link that isn't there: each call fails and is counted.
#[derive(Drop)]
pub struct ClosedLink {
    faults: u64,
}

impl ClosedLink {
    ghost use Rattle.disk_model.specs.Closed.{link_faults};

    /// A link that isn't there, with no fault yet.
    pub fn new() -> ClosedLink
        ensures { link_faults result ≡ 0 }
    {
        ClosedLink { faults: 0 }
    }

    /// How often it has failed.
    pub fn faults(&self) -> u64
        ensures { result ≡ link_faults self.now }
    {
        self.faults
    }
}

impl Link for ClosedLink {
    ghost use Rattle.disk_model.specs.Closed.{link_faults};

    ghost asked = { λ l. None };

    ghost script = { λ l. Some [] };

    ghost faults = { link_faults };

    fn ask(
        &mut self,
        alloc: Global,
        peer: PeerId,
        body: &[u8],
        answer: &mut Vec<u8>,
    ) -> Result<(), LinkFault>
        ensures failed { IsErrOf result LinkFault.Failed }
        ensures rose { Rose (link_faults self.old) (link_faults self.new) }
        ensures later { link_faults self.old ≤ link_faults self.new }
    {
        self.faults = one_more(self.faults);
        Err(LinkFault::Failed)
    }
}
