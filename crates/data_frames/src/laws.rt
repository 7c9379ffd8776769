//! Laws of the definitions.

ghost use Rattle.std.specs.Prelude.{◌≡◌, ◌<◌, ◌≤◌, ◌+◌, ◌%◌, ◌^◌, ℕ, List, Option, Some, None};
ghost use Rattle.wire_ids.specs.declared.keys.SessionKeys.{SessionKeys};
ghost use Rattle.data_frames.specs.Counts.{IsFullCount};
ghost use Rattle.data_frames.specs.DataForms.{DataForm, Uplink, data_fault, fields_of};
ghost use Rattle.data_frames.specs.Downlinks.{Downlink, HasDownMic, down_text, sent};
ghost use Rattle.data_frames.specs.Mics.{HasUpMic};
ghost use Rattle.data_frames.specs.declared.sending.UpParts.{UpParts};
ghost use Rattle.data_frames.specs.declared.uplink.DataUp.{DataUp};

/// Bytes are one uplink at most, and those of an uplink have no fault.
pub fn a_data_form_has_one_reading()
    ensures one { (bytes : List ℕ) (u v : Uplink) → DataForm bytes u → DataForm bytes v → u ≡ v }
    ensures none { (bytes : List ℕ) (u : Uplink) → DataForm bytes u → data_fault bytes ≡ None }
{}

/// An uplink that was written by a device and is read has its MIC on its channel.
pub fn sent_uplinks_are_valid()
    ensures { (keys : SessionKeys) (p : UpParts) (up : DataUp) → fields_of up ≡ sent keys p
        → DataForm up.whole.now (fields_of up) → HasUpMic keys up p.count p.conf p.rate p.channel }
{}

/// A downlink's last four bytes are the MIC of those before them.
pub fn downlinks_have_their_mic()
    ensures { (keys : SessionKeys) (d : Downlink) → HasDownMic keys d (down_text keys d) }
{}

/// There is one full counter at most. A device's first counter below 2^16, and each counter that is
/// at most 2^16 above the last one, is found again by its low 16 bits.
pub fn full_counters_are_found()
    ensures one { (last : Option ℕ) (wire n m : ℕ) → IsFullCount last wire n
        → IsFullCount last wire m → n ≡ m }
    ensures first { (n : ℕ) → n < 2 ^ 16 → IsFullCount None n n }
    ensures next { (last n : ℕ) → last < n → n ≤ last + 2 ^ 16
        → IsFullCount (Some last) (n % 2 ^ 16) n }
{}
