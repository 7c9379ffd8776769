ghost use Rattle.std.specs.Prelude.{◌≡◌, ◌≤◌, ◌%◌, ◌^◌, [], ◌∷◌, find, length, IfOk, position};
ghost use Rattle.std.specs.Prelude.{sum, take, vec_capacity};
ghost use Rattle.std.specs.Option.{option_copied};
ghost use Rattle.wire_ids.specs.Lists.{changed};
ghost use Rattle.entry_codec.specs.Kept.{answer_among, has_body, is_of, keep};
ghost use Rattle.entry_codec.specs.Kept.{kept_answer, put_first};
ghost use Rattle.entry_codec.specs.LookUps.{is_same_sender};

use entries::Request;
use std::alloc::Global;
use std::marker::Model;
use wire_ids::{Memory, Sender, ShortText};

/// A request's body, and its answer.
#[derive(Drop)]
pub struct KeptPair {
    pub body: ShortText,
    pub answer: ShortText,
}

/// At most 64 of them, the newest first, with room for as many.
#[derive(Drop)]
pub struct KeptPairs {
    pairs: Vec<KeptPair>,
    // The sum of each body's bytes. They lie together, and the bodies don't.
    sums: Vec<u32>,
}

impl Model for KeptPairs {
    ghost use Rattle.std.specs.Prelude.{List, ◌≡◌, ◌≤◌, length, map, sum, vec_capacity, ◌%◌, ◌^◌};
    ghost use Rattle.entry_codec.specs.declared.kept.KeptPair.{KeptPair};

    ghost Value = { List KeptPair };

    ghost view = { λ a. a.pairs.items };

    ghost invariant = { λ a. (length a.pairs.items ≤ 64)
        × (64 ≤ vec_capacity a.pairs)
        × (64 ≤ vec_capacity a.sums)
        × (a.sums.items ≡ map (λ (p : KeptPair). sum p.body % 2 ^ 32) a.pairs.items) };
}

// The sum of a text's bytes, as far as it fits.
fn sum_of(text: &[u8]) -> u32
    ensures { result ≡ sum text.now % 2 ^ 32 }
{
    let mut total = 0u32;
    for byte in text {
        total = total.wrapping_add(u32::from(*byte));
    }
    total
}

// Puts an element in front, and drops the 65th.
fn put_first<T: Drop>(list: &mut Vec<T>, new: T)
    requires { 64 ≤ vec_capacity list.old }
    ensures items { list.new.items ≡ take 64 (new ∷ list.old.items) }
    ensures few { length list.new.items ≤ 64 }
    ensures capacity { vec_capacity list.new ≡ vec_capacity list.old }
{
    list.truncate(63);
    let _ = list.insert(0, new);
}

// Whether the pair has this body. The sums tell most that differ, without a look at the bodies.
#[tactic(auto, using(crate::proofs::Keeping::body_by_sum))]
fn has_body(pair: &KeptPair, own: u32, body: &[u8], asked: u32) -> bool
    requires own { own ≡ sum pair.now.body % 2 ^ 32 }
    requires asked { asked ≡ sum body.now % 2 ^ 32 }
    ensures { result ≡ has_body body.now pair.now }
{
    own == asked && pair.body.as_slice() == body
}

impl KeptPairs {
    /// No pair, and room for 64. The one error is want of memory.
    pub fn new(alloc: Global) -> Result<KeptPairs, Memory>
        ensures { IfOk result (λ pairs. pairs ≡ []) }
    {
        Ok(KeptPairs {
            pairs: Vec::with_capacity(alloc, 64)?,
            sums: Vec::with_capacity(alloc, 64)?,
        })
    }

    // Puts a pair in front, and drops the 65th.
    fn put(&mut self, pair: KeptPair)
        ensures { self.new ≡ put_first pair self.old }
    {
        put_first(&mut self.sums, sum_of(pair.body.as_slice()));
        put_first(&mut self.pairs, pair);
    }

    /// The pairs, the newest first.
    pub fn as_slice(&self) -> &[KeptPair]
        ensures pairs { result.now ≡ self.now }
        ensures few { length result.now ≤ 64 }
    {
        self.pairs.as_slice()
    }

    // The answer of the newest pair with this body.
    #[tactic(auto, using(crate::proofs::Keeping::found_at, crate::proofs::Keeping::not_at))]
    fn answer_among(&self, body: &[u8]) -> Option<&ShortText>
        ensures { option_copied result ≡ answer_among body.now self.now }
    {
        let sum = sum_of(body);
        let count = self.pairs.len();
        for i in 0..count {
            if has_body(&self.pairs[i], self.sums[i], body, sum) {
                return Some(&self.pairs[i].answer);
            }
        }
        None
    }
}

/// The answers that are kept for a sender.
#[derive(Drop)]
pub struct KeptAnswers {
    pub sender: Sender,
    pub pairs: KeptPairs,
}

/// Whether both are one sender.
pub(crate) fn is_same_sender(a: Sender, b: Sender) -> bool
    ensures { result ≡ is_same_sender a b }
{
    match a {
        Sender::Network(a) => match b {
            Sender::Network(b) => a.get() == b.get(),
            Sender::Party(_) => false,
        },
        Sender::Party(a) => match b {
            Sender::Network(_) => false,
            Sender::Party(b) => a.0 == b.0,
        },
    }
}

fn place(kept: &[KeptAnswers], sender: Sender) -> Option<usize>
    ensures { result ≡ position (is_of sender) kept.now }
{
    kept.iter()
        .position(|kept| is_same_sender(sender, kept.sender))
}

/// Keeps the answer of a request, where there is one, for its sender.
pub(crate) fn keep(kept: &mut Vec<KeptAnswers>, request: Option<Request>)
    ensures { kept.new.items ≡ keep request kept.old.items }
{
    if let Some(request) = request {
        let Request {
            sender,
            body,
            answer,
        } = request;
        if let Some(at) = place(kept.as_slice(), sender) {
            let kept = &mut kept[at];
            kept.pairs.put(KeptPair { body, answer });
        }
    }
}

fn answers_of(kept: &[KeptAnswers], sender: Sender) -> Option<&KeptAnswers>
    ensures { option_copied result ≡ find (is_of sender) kept.now }
{
    kept.iter().find(|kept| is_same_sender(sender, kept.sender))
}

/// The answer that is kept for a sender's body.
pub(crate) fn kept_answer<'a>(
    kept: &'a [KeptAnswers],
    sender: Sender,
    body: &[u8],
) -> Option<&'a ShortText>
    ensures { option_copied result ≡ kept_answer sender body.now kept.now }
{
    match answers_of(kept, sender) {
        None => None,
        Some(kept) => kept.pairs.answer_among(body),
    }
}
