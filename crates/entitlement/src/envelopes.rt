ghost use Rattle.std.specs.Prelude.{◌≡◌, map};
ghost use Rattle.key_wrap.specs.Wrap.{wrapped_key};

/// A key as an answer carries it: wrapped under the KEK of its label (RFC 3394, 2.2.1).
pub fn envelope(kek: &[u8; 16], key: &[u8; 16]) -> [u8; 24]
    ensures { result ≡ wrapped_key kek.now key.now }
{
    key_wrap::wrap(kek, key)
}

/// A network's three keys as an answer carries them: each wrapped under the KEK of its label
/// (RFC 3394, 2.2.1).
pub fn network_envelopes(kek: &[u8; 16], keys: &[[u8; 16]; 3]) -> [[u8; 24]; 3]
    ensures { result ≡ map (wrapped_key kek.now) keys.now }
{
    key_wrap::wrap_three(kek, keys)
}
