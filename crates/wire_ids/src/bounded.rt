use crate::Memory;
use std::alloc::Global;
use std::marker::Model;

/// A text of at most `MOST` bytes. Contracts see it as a list.
#[derive(Debug, Drop)]
pub struct BoundedText<const MOST: usize> {
    bytes: Vec<u8>,
}

/// A text whose length has two bytes.
pub type ShortText = BoundedText<65_535>;

/// A text whose length has four bytes.
pub type LongText = BoundedText<4_294_967_295>;

impl<const MOST: usize> Model for BoundedText<MOST> {
    ghost use Rattle.std.specs.Prelude.{◌≤◌, List, length, ℕ};

    ghost Value = { List ℕ };

    ghost view = { λ t. t.bytes.items };

    ghost invariant = { λ t. length t.bytes.items ≤ MOST };
}

ghost use Rattle.std.specs.Prelude.{◌≡◌, ◌≤◌, ◌==◌, length, IfOk};
ghost use Rattle.wire_ids.specs.Texts.{bounded};

impl<const MOST: usize> BoundedText<MOST> {
    /// The text of these bytes, or None exactly where they are more than `MOST`. Takes no memory.
    pub fn new(bytes: Vec<u8>) -> Option<Self>
        ensures { result ≡ bounded MOST bytes.items }
    {
        if bytes.len() <= MOST {
            Some(BoundedText { bytes })
        } else {
            None
        }
    }

    /// A copy of these bytes, or None exactly where they are more than `MOST`.
    pub fn of_slice(alloc: Global, bytes: &[u8]) -> Result<Option<Self>, Memory>
        ensures { IfOk result (λ t. t ≡ bounded MOST bytes.now) }
    {
        if bytes.len() > MOST {
            return Ok(None);
        }
        Ok(Some(BoundedText {
            bytes: bytes.to_vec(alloc)?,
        }))
    }

    /// Its bytes, in order.
    pub fn as_slice(&self) -> &[u8]
        ensures value { result.now ≡ self.now }
        ensures bound { length result.now ≤ MOST }
    {
        self.bytes.as_slice()
    }

    /// How many bytes it has.
    pub fn len(&self) -> usize
        ensures value { result ≡ length self.now }
        ensures bound { result ≤ MOST }
    {
        self.bytes.len()
    }

    /// Whether it has no bytes.
    pub fn is_empty(&self) -> bool
        ensures { result ≡ (length self.now == 0) }
    {
        self.bytes.is_empty()
    }

    /// Its bytes, given back without a copy.
    pub fn into_vec(self) -> Vec<u8>
        ensures value { result.items ≡ self.entry }
        ensures bound { length result.items ≤ MOST }
    {
        self.bytes
    }
}

impl<const MOST: usize> PartialEq for BoundedText<MOST> {
    ghost use Rattle.std.specs.Prelude.{nat_eq};
    ghost use Rattle.std.specs.Cmp.{partial_equiv_from_equiv};
    ghost use Rattle.std.specs.Cmp.Lexicographic.{nat_list_eq_equiv, pointwise};

    ghost eq = { λ a b. pointwise nat_eq a b };

    ghost laws = { partial_equiv_from_equiv nat_list_eq_equiv };

    fn eq(&self, other: &BoundedText<MOST>) -> bool {
        self.as_slice() == other.as_slice()
    }
}

impl<const MOST: usize> Eq for BoundedText<MOST> {
    ghost use Rattle.std.specs.Cmp.Lexicographic.{nat_list_eq_equiv};

    ghost laws = { nat_list_eq_equiv };
}
