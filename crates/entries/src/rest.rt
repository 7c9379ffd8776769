ghost use Rattle.std.specs.Prelude.{◌≡◌, ◌==◌, length};
ghost use Rattle.wire_ids.specs.Forms.{u8 as byte, u16 as two, u24 as three, u32 as four};
ghost use Rattle.wire_ids.specs.Forms.{u64 as eight, exactly, flag, long, short};
ghost use Rattle.entries.specs.Reads.{Reads};

use crate::unread::Unread;
use std::alloc::Global;
use std::marker::Model;
use wire_ids::{LongText, NetId, Nonce24, ShortText};

/// Bytes that are read from the front. Contracts see what is left of them.
#[derive(Drop)]
pub(crate) struct Rest<'a> {
    bytes: &'a [u8],
}

impl<'a> Model for Rest<'a> {
    ghost use Rattle.std.specs.Prelude.{List, ℕ};

    ghost Value = { List ℕ };

    ghost view = { λ a. a.bytes.now };
}

impl<'a> Rest<'a> {
    pub(crate) fn new(bytes: &'a [u8]) -> Rest<'a>
        ensures { result ≡ bytes.now }
    {
        Rest { bytes }
    }

    pub(crate) fn is_empty(&self) -> bool
        ensures { result ≡ (length self.now == 0) }
    {
        self.bytes.is_empty()
    }

    #[tactic(auto, unfolding(wire_ids::specs::Forms::u8))]
    pub(crate) fn u8(&mut self) -> Result<u8, Unread>
        ensures { Reads result self.new (byte.read self.old) }
    {
        match self.bytes {
            [] => Err(Unread::NoEntry),
            [b, rest @ ..] => {
                self.bytes = rest;
                Ok(*b)
            }
        }
    }

    #[tactic(auto, unfolding(wire_ids::specs::Forms::u16))]
    pub(crate) fn u16(&mut self) -> Result<u16, Unread>
        ensures { Reads result self.new (two.read self.old) }
    {
        match self.bytes.split_first_chunk::<2>() {
            None => Err(Unread::NoEntry),
            Some((front, rest)) => {
                self.bytes = rest;
                Ok(u16::from_be_bytes(*front))
            }
        }
    }

    #[tactic(auto, unfolding(wire_ids::specs::Forms::u32))]
    pub(crate) fn u32(&mut self) -> Result<u32, Unread>
        ensures { Reads result self.new (four.read self.old) }
    {
        match self.bytes.split_first_chunk::<4>() {
            None => Err(Unread::NoEntry),
            Some((front, rest)) => {
                self.bytes = rest;
                Ok(u32::from_be_bytes(*front))
            }
        }
    }

    #[tactic(auto, unfolding(wire_ids::specs::Forms::u64))]
    pub(crate) fn u64(&mut self) -> Result<u64, Unread>
        ensures { Reads result self.new (eight.read self.old) }
    {
        match self.bytes.split_first_chunk::<8>() {
            None => Err(Unread::NoEntry),
            Some((front, rest)) => {
                self.bytes = rest;
                Ok(u64::from_be_bytes(*front))
            }
        }
    }

    #[tactic(auto, unfolding(wire_ids::specs::Forms::u24))]
    pub(crate) fn net(&mut self) -> Result<NetId, Unread>
        ensures { Reads result self.new (three.read self.old) }
    {
        match self.bytes {
            [a, b, c, rest @ ..] => {
                self.bytes = rest;
                Ok(NetId::from_be_bytes([*a, *b, *c]))
            }
            _ => Err(Unread::NoEntry),
        }
    }

    #[tactic(auto, unfolding(wire_ids::specs::Forms::u24))]
    pub(crate) fn join_nonce(&mut self) -> Result<Nonce24, Unread>
        ensures { Reads result self.new (three.read self.old) }
    {
        match self.bytes {
            [a, b, c, rest @ ..] => {
                self.bytes = rest;
                Ok(Nonce24::from_be_bytes([*a, *b, *c]))
            }
            _ => Err(Unread::NoEntry),
        }
    }

    #[tactic(auto, unfolding(wire_ids::specs::Forms::flag, wire_ids::specs::Forms::sum))]
    pub(crate) fn flag(&mut self) -> Result<bool, Unread>
        ensures { Reads result self.new (flag.read self.old) }
    {
        match self.u8()? {
            0 => Ok(false),
            1 => Ok(true),
            _ => Err(Unread::NoEntry),
        }
    }

    #[tactic(auto, unfolding(wire_ids::specs::Forms::exactly))]
    pub(crate) fn sixteen(&mut self) -> Result<[u8; 16], Unread>
        ensures { Reads result self.new ((exactly 16).read self.old) }
    {
        match self.bytes.split_first_chunk::<16>() {
            None => Err(Unread::NoEntry),
            Some((front, rest)) => {
                self.bytes = rest;
                Ok(*front)
            }
        }
    }

    #[tactic(auto, unfolding(wire_ids::specs::Forms::short))]
    pub(crate) fn short(&mut self, alloc: Global) -> Result<ShortText, Unread>
        ensures { Reads result self.new (short.read self.old) }
    {
        let count = self.u16()? as usize;
        if self.bytes.len() < count {
            return Err(Unread::NoEntry);
        }
        let (text, rest) = self.bytes.split_at(count);
        self.bytes = rest;
        match ShortText::of_slice(alloc, text)? {
            Some(text) => Ok(text),
            None => Err(Unread::NoEntry),
        }
    }

    #[tactic(auto, unfolding(wire_ids::specs::Forms::long))]
    pub(crate) fn long(&mut self, alloc: Global) -> Result<LongText, Unread>
        ensures { Reads result self.new (long.read self.old) }
    {
        let count = self.u32()? as usize;
        if self.bytes.len() < count {
            return Err(Unread::NoEntry);
        }
        let (text, rest) = self.bytes.split_at(count);
        self.bytes = rest;
        match LongText::of_slice(alloc, text)? {
            Some(text) => Ok(text),
            None => Err(Unread::NoEntry),
        }
    }
}
