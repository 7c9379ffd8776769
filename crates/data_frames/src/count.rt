ghost use Rattle.std.specs.Prelude.{◌≤◌, ◌^◌, ℕ, IfSome, IfNone};
ghost use Rattle.data_frames.specs.Counts.{IsFullCount, MayCount};

/// The counter of an uplink that sends `wire`: the least number above the last accepted one, where
/// there is one, whose low 16 bits are `wire`. None exactly where it would pass 2^32 - 1 (LoRaWAN
/// 1.1, 4.3.1.5, without a limit of the gap).
pub fn full_count(last: Option<u32>, wire: u16) -> Option<u32>
    ensures least { IfSome result (λ n. IsFullCount last wire n) }
    ensures none { IfNone result ((n : ℕ) → MayCount last wire n → 2 ^ 32 ≤ n) }
{
    let Some(last) = last else {
        return Some(u32::from(wire));
    };
    let same_turn = last / 65536 * 65536 + u32::from(wire);
    if same_turn > last {
        Some(same_turn)
    } else {
        same_turn.checked_add(65536)
    }
}
