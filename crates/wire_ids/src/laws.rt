//! Laws of the definitions, that speak of all identifiers.

ghost use Rattle.std.specs.Prelude.{◌≡◌, ◌≢◌, ◌<◌, ◌*◌, ◌^◌, ◌↔◌, ℕ, List, ◌∷◌, [], length};
ghost use Rattle.std.specs.Prelude.{Bool, Option, Some, None, Ok, Err, false};
ghost use Rattle.std.specs.Prelude.{option_map, slice_get};
ghost use Rattle.wire_ids.specs.Addresses.{HasSameIdentifier, SharesAnAddress};
ghost use Rattle.wire_ids.specs.Decisions.{entry_of, reply_by};
ghost use Rattle.wire_ids.specs.Digits.{IsFirstBad, id_bytes, without_prefix};
ghost use Rattle.wire_ids.specs.Digits.{addr_digits, eui_digits, net_digits};
ghost use Rattle.wire_ids.specs.Digits.{read_addr, read_eui, read_net};
ghost use Rattle.wire_ids.specs.Forms.{IsForm, below, both, exactly, flag, long, mark};
ghost use Rattle.wire_ids.specs.Forms.{optional, short, u16, u24, u32, u64, u8};
ghost use Rattle.wire_ids.specs.Lists.{changed};
ghost use Rattle.wire_ids.specs.Numbers.{wire_bytes, wire_number};
ghost use Rattle.wire_ids.specs.declared.address.DevAddr.{DevAddr};
ghost use Rattle.wire_ids.specs.declared.decision.Decision.{Decision};
ghost use Rattle.wire_ids.specs.declared.eui.Eui.{Eui};
ghost use Rattle.wire_ids.specs.declared.faults.IdFault.TheVariants.{BadDigit, BadLength};

/// The digits of an identifier are read as that identifier.
pub fn digits_are_read()
    ensures eui { (eui : Eui) → eui.0 < 2 ^ 64 → read_eui (eui_digits eui) ≡ Ok eui }
    ensures addr { (addr : DevAddr) → addr.0 < 2 ^ 32 → read_addr (addr_digits addr) ≡ Ok addr }
    ensures net { (net : ℕ) → net < 2 ^ 24 → read_net (net_digits net) ≡ Ok net }
{}

/// The bytes of a number of 24 bits in a frame are read as that number, and no other three bytes.
pub fn wire_bytes_are_read()
    ensures number { (n : ℕ) → n < 2 ^ 24 → wire_number (wire_bytes n) ≡ n }
    ensures bytes { (a b c : ℕ) → a < 256 → b < 256 → c < 256
        → wire_bytes (wire_number (a ∷ b ∷ c ∷ [])) ≡ a ∷ b ∷ c ∷ [] }
{}

/// A text is refused for its length exactly where it has another number of digits, and at a place
/// exactly where it has the right number and its first byte that is no digit stands there.
pub fn refusals_of_digits()
    ensures length { (n got : ℕ) (text : List ℕ) → (id_bytes n text ≡ Err (BadLength got))
        ↔ ((length (without_prefix text) ≡ got) × (got ≢ 2 * n)) }
    ensures digit { (n place : ℕ) (text : List ℕ) → (id_bytes n text ≡ Err (BadDigit place))
        ↔ ((length (without_prefix text) ≡ 2 * n) × IsFirstBad (without_prefix text) place) }
{}

/// Two networks share an address exactly where their types and their NwkIDs are equal (TS002).
pub fn networks_of_one_address()
    ensures { (a b : ℕ) → a < 2 ^ 24 → b < 2 ^ 24 → SharesAnAddress a b ↔ HasSameIdentifier a b }
{}

/// The list with element i changed has that element changed and all others as they were.
pub fn one_element_changes<X>()
    ensures length { (i : ℕ) (f : X → X) (xs : List X) → length (changed i f xs) ≡ length xs }
    ensures there { (i : ℕ) (f : X → X) (xs : List X) → slice_get (changed i f xs) i
        ≡ option_map f (slice_get xs i) }
    ensures others { (i j : ℕ) (f : X → X) (xs : List X) → j ≢ i
        → slice_get (changed i f xs) j ≡ slice_get xs j }
{}

/// A request makes an entry only where no answer was kept for it, no open ask has its body and no
/// cause stands against it; the entry is then that of its success.
pub fn entries_are_of_successes<A, Q, E, C>()
    ensures { (refused : C → A) (waits : C) (kept : Option (List ℕ)) (asked : Bool)
        (cause : Option C) (success : Decision A Q E) (e : E)
        → entry_of (reply_by refused waits kept asked cause success) ≡ Some e
        → (kept ≡ None) × (asked ≡ false) × (cause ≡ None) × (entry_of success ≡ Some e) }
{}

/// Each form of fields reads its spellings again, whatever follows them, and reads nothing else as
/// their values; so a record of such fields has one spelling.
pub fn fields_have_one_spelling()
    ensures numbers { IsForm u8 × IsForm u16 × IsForm u24 × IsForm u32 × IsForm u64 }
    ensures bytes { (n : ℕ) → IsForm (below n) × IsForm (mark n) × IsForm (exactly n) }
    ensures texts { IsForm short × IsForm long }
    ensures flag { IsForm flag }
    ensures composed { IsForm (optional (both u32 short)) }
{}
