//! What holds of each valid tables text.

ghost use Rattle.std.specs.Prelude.{◌≡◌, ℕ, List, Ok};
ghost use Rattle.agreements.specs.Sound.{IsSound};
ghost use Rattle.agreements.specs.Walk.{Config, tables_of};

/// The tables of each valid text keep the limits of their sections; no party's name, NetID, DevEUI
/// or label stands twice, and each label has 1 to 32 printable bytes; each agreement has its
/// network, and each device its JoinEUI, home and application.
pub fn valid_tables_are_sound()
    ensures { (text : List ℕ) (c : Config) → tables_of text ≡ Ok c → IsSound c }
{}
