//! Objects as compact JSON: one list of members, of which those that are there are written.

ghost use Rattle.std.specs.Prelude.{◌≡◌, ◌++◌, IfOk, OnOk, map};
ghost use Rattle.serde_json.specs.Data.{Data, member, no_members, object};
ghost use Rattle.serde_json.specs.Written.{comma_if, compact_text};
ghost use Rattle.backend_json.specs.Names.{name_text};
ghost use Rattle.backend_json.specs.Objects.{object_text};
ghost use Rattle.backend_json.specs.Writing.{GoesOn, entry_text, field_now};

use crate::name::Name;
use std::alloc::AllocError;

/// What is written as a JSON value.
pub(crate) trait Written {
    /// The value.
    ghost json: { Self → Data };

    /// Writes it as compact JSON.
    fn put(&self, out: &mut Vec<u8>) -> Result<(), AllocError>
        ensures { OnOk result (out.new.items ≡ out.old.items ++ compact_text (json self.now)) };
}

/// A member of an object: its name, and its value where it is there.
#[derive(Clone, Copy)]
pub(crate) struct Member<'a, V>(pub Name, pub &'a Option<V>);

// Writes a comma where a member stands before.
fn put_comma(out: &mut Vec<u8>, later: bool) -> Result<(), AllocError>
    ensures { OnOk result (out.new.items ≡ out.old.items ++ comma_if later) }
{
    if later {
        return out.extend_from_slice(b",");
    }
    Ok(())
}

// Writes a name, the colon and the value.
#[tactic(auto, unfolding(crate::specs::Writing::entry_text))]
fn put_entry<V: Written>(out: &mut Vec<u8>, name: Name, value: &V) -> Result<(), AllocError>
    ensures { OnOk result (out.new.items
        ≡ out.old.items ++ entry_text (name_text name) (V.json value.now)) }
{
    out.extend_from_slice(name.lead().as_bytes())?;
    value.put(out)
}

// Writes a member where it is there, and says whether one stands before what comes.
#[tactic(auto, using(crate::proofs::Objects::goes_on))]
fn put_member<V: Written>(
    out: &mut Vec<u8>,
    later: bool,
    member: &Member<'_, V>,
) -> Result<bool, AllocError>
    ensures { IfOk result (λ after.
        GoesOn (field_now V.json member.now) out.old.items later out.new.items after) }
{
    let Some(value) = member.1 else {
        return Ok(later);
    };
    put_comma(out, later)?;
    put_entry(out, member.0, value)?;
    Ok(true)
}

/// Writes an object of those of the members that are there, in their order.
pub(crate) fn put_object<V: Written>(
    out: &mut Vec<u8>,
    members: &[Member<'_, V>],
) -> Result<(), AllocError>
    ensures { OnOk result (out.new.items
        ≡ out.old.items ++ object_text (map (field_now V.json) members.now)) }
{
    out.extend_from_slice(b"{")?;
    let mut later = false;
    for member in members {
        later = put_member(out, later, member)?;
    }
    out.extend_from_slice(b"}")
}

/// Writes an object of two members.
#[tactic(auto, using(crate::proofs::Objects::pair))]
pub(crate) fn put_pair<V: Written, W: Written>(
    out: &mut Vec<u8>,
    first: Name,
    value: &V,
    second: Name,
    other: &W,
) -> Result<(), AllocError>
    ensures { OnOk result (out.new.items ≡ out.old.items ++ compact_text (object
        (member (name_text first) (V.json value.now)
        (member (name_text second) (W.json other.now) no_members)))) }
{
    out.extend_from_slice(b"{")?;
    put_entry(out, first, value)?;
    out.extend_from_slice(b",")?;
    put_entry(out, second, other)?;
    out.extend_from_slice(b"}")
}
