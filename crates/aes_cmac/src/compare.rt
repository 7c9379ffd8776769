ghost use Rattle.std.specs.Prelude.{◌≡◌, ◌↔◌, ◌≤◌, IsTrue, length};

// How many bytes are compared by one call: a number that is known, so that no address has an index.
const PIECE: usize = 8;

// The bits in which a byte of `a` differs from its fellow of `b`. It stands apart so that the loop
// over pieces gives it two addresses, and reads nothing itself.
#[inline(never)]
fn difference(a: &[u8], b: &[u8]) -> u8
    requires same_length { length a.now ≡ length b.now }
    requires short { length a.now ≤ 8 }
    ensures { (result ≡ 0) ↔ (a.now ≡ b.now) }
{
    let mut difference = 0;
    'each: for i in 0..PIECE {
        if i < a.len() {
            difference |= a[i] ^ b[i];
        }
    }
    difference
}

/// Whether two byte strings are the same. Strings of one length are compared in all their bytes,
/// and only then is it decided, so that the time does not tell where a wrong MIC or check begins
/// to differ.
// It stands apart so that no caller's use of the answer changes how it is compiled.
#[inline(never)]
pub fn same_bytes(a: &[u8], b: &[u8]) -> bool
    ensures { IsTrue result ↔ (a.now ≡ b.now) }
{
    if a.len() != b.len() {
        return false;
    }
    let mut all = 0;
    let mut start = 0;
    'pieces: while start < a.len() {
        let end = a.len().min(start + PIECE);
        all |= difference(&a[start..end], &b[start..end]);
        start = end;
    }
    all == 0
}
