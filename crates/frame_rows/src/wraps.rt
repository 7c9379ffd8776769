use key_wrap::{unwrap, wrap, wrap_three};
use std::test::Fail;

#[test]
fn a_wrapped_key_unwraps_unless_a_bit_is_changed(rt: HostRuntime) -> Result<(), Fail> {
    let kek = 0x000102030405060708090a0b0c0d0e0fu128.to_be_bytes();
    let key = 0x00112233445566778899aabbccddeeffu128.to_be_bytes();
    let mut wrapped = [
        0x1f, 0xa6, 0x8b, 0x0a, 0x81, 0x12, 0xb4, 0x47, 0xae, 0xf3, 0x4b, 0xd8, 0xfb, 0x5a, 0x7b,
        0x82, 0x9d, 0x3e, 0x86, 0x23, 0x71, 0xd2, 0xcf, 0xe5,
    ];
    assert_eq!(rt; wrap(&kek, &key), wrapped);
    assert_eq!(rt; unwrap(&kek, &wrapped), Some(key));
    wrapped[23] ^= 1;
    assert_eq!(rt; unwrap(&kek, &wrapped), None);
    Ok(())
}

// Keys, each with its wrapping under 000102..0f by OpenSSL's AES key wrap.
const WRAPPED: [(u128, [u8; 24]); 3] = [
    (
        0x000102030405060708090a0b0c0d0e0f,
        [
            0x93, 0x5a, 0x3e, 0xb1, 0x01, 0xc3, 0x4a, 0xdd, 0x02, 0x5e, 0x17, 0x0b, 0x46, 0xff,
            0x0d, 0xb2, 0x3e, 0x5c, 0x2f, 0xae, 0x8c, 0x8f, 0x83, 0x70,
        ],
    ),
    (
        0xffeeddccbbaa99887766554433221100,
        [
            0xa3, 0x34, 0x38, 0x1c, 0xca, 0x1c, 0x12, 0x7a, 0x5b, 0xb1, 0xa8, 0x97, 0x39, 0xc7,
            0x05, 0x34, 0x91, 0x26, 0x9b, 0x21, 0x4f, 0x27, 0x80, 0x19,
        ],
    ),
    (
        0x00112233445566778899aabbccddeeff,
        [
            0x1f, 0xa6, 0x8b, 0x0a, 0x81, 0x12, 0xb4, 0x47, 0xae, 0xf3, 0x4b, 0xd8, 0xfb, 0x5a,
            0x7b, 0x82, 0x9d, 0x3e, 0x86, 0x23, 0x71, 0xd2, 0xcf, 0xe5,
        ],
    ),
];

#[test]
fn three_keys_are_wrapped_in_their_order(rt: HostRuntime) -> Result<(), Fail> {
    let kek = 0x000102030405060708090a0b0c0d0e0fu128.to_be_bytes();
    for first in 0..3 {
        let rows = [
            WRAPPED[first],
            WRAPPED[(first + 1) % 3],
            WRAPPED[(first + 2) % 3],
        ];
        let keys = rows.map(|(key, _)| key.to_be_bytes());
        let wrapped = wrap_three(&kek, &keys);
        assert_eq!(rt; wrapped, rows.map(|(_, wrapped)| wrapped));
    }
    Ok(())
}
