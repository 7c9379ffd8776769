ghost use Rattle.std.specs.Prelude.{◌≡◌, ◌<◌, ◌≤◌, length, vec_len, IfOk};
ghost use Rattle.aes_cmac.specs.Aes.{encrypted, decrypted};
ghost use Rattle.key_vault.specs.Table.{Serves, Encrypts, Decrypts, root_key};

use join_frames::{
    Accept, AcceptKind, JoinUp, accept_bytes, join_bytes, join_mic_ok, open_accept, read_up,
    rejoin_mic_ok, rejoin1_bytes, rejoin02_bytes,
};
use key_vault::{BlockFn, KeyRing, RootKind, Vault, js_int_of};
use std::alloc::{AllocError, Global};
use std::process::Abort;
use std::test::Fail;
use wire_ids::{DevAddr, Eui, NetId, Nonce24, Radio, RootKeys, Seed};

const NWK_KEY: [u8; 16] = [33; 16];

const DEVICE: Eui = Eui(0x70b3d57ed0001021);

const JOIN_EUI: Eui = Eui(0x70b3d57ed0000001);

const CF_LIST: u128 = 0x184f84e85684b85e84886684586e8400;

const JOIN: u128 = 0x010000d07ed5b370211000d07ed5b370;

// A table whose second row is the device's.
fn table(alloc: Global) -> Result<Vec<RootKeys>, AllocError>
    ensures { IfOk result (λ keys. vec_len keys ≡ 2) }
{
    let first = RootKeys {
        nwk: [0; 16],
        app: [0; 16],
    };
    let second = RootKeys {
        nwk: NWK_KEY,
        app: [161; 16],
    };
    Ok(vec![in alloc; first, second]?)
}

// The first accept has the nonce 1, the others 0x0a0b0c.
fn accept(kind: AcceptKind, counter: u16, cf: bool) -> Option<Accept> {
    let first = counter == 0;
    Some(Accept {
        kind,
        dev: DEVICE,
        seed: Seed {
            nonce: Nonce24::new(if first { 1 } else { 0x0a0b0c })?,
            join_eui: JOIN_EUI,
            counter,
        },
        net: NetId::new(if first { 0x000014 } else { 0x600005 })?,
        addr: DevAddr(if first { 0x28000001 } else { 0xe00a0001 }),
        radio: Radio {
            dl: if first { 0x80 } else { 0x91 },
            rx_delay: if first { 1 } else { 15 },
            cf: if cf {
                Some(CF_LIST.to_be_bytes())
            } else {
                None
            },
        },
    })
}

// The encrypted blocks, the second first. They are another library's.
const SEALED: [(AcceptKind, u16, Option<u128>, u128); 6] = [
    (
        AcceptKind::Join,
        0x0,
        None,
        0x53920cfdf2a9f2b09d93e224878cab9e,
    ),
    (
        AcceptKind::Join,
        0x102,
        Some(0x79a5229afd259bdb1cc6a24c76465ed0),
        0x8eb656544f76d7827e46663fbe155c41,
    ),
    (
        AcceptKind::Rejoin0,
        0x1234,
        None,
        0xc0faa9a4f64dda848cc3c29fd8fe38b6,
    ),
    (
        AcceptKind::Rejoin1,
        0x1234,
        None,
        0x299101ca6c4f8cd8afb0fad3d7a4a3bf,
    ),
    (
        AcceptKind::Rejoin2,
        0x1234,
        None,
        0x4596937b5409577533ee93052eae2551,
    ),
    (
        AcceptKind::Rejoin1,
        0xffff,
        Some(0x9c8ead3642fa6b9fe69058b3328275b8),
        0x594574bee91f3e725b7aaa0dfddbb7c4,
    ),
];

// Each call at the second row of a vault.
fn expect_calls<E: BlockFn, D: BlockFn>(
    rt: &impl Abort,
    keys: &Vec<RootKeys>,
    encrypt: E,
    decrypt: D,
)
    requires two { vec_len keys.now ≡ 2 }
    requires may_encrypt { Serves (E.may encrypt) (vec_len keys.now) }
    requires encrypts { Encrypts (E.gives encrypt) keys.now.items }
    requires may_decrypt { Serves (D.may decrypt) (vec_len keys.now) }
    requires decrypts { Decrypts (D.gives decrypt) keys.now.items }
{
    let vault = Vault::new(keys, encrypt, decrypt);
    for (kind, counter, second, first) in SEALED {
        let Some(accept) = accept(kind, counter, second.is_some()) else {
            panic!(rt; "no accept");
        };
        let bytes = accept_bytes(&vault, 1, &accept);
        let mut sealed = [0x20; 33];
        sealed[1..17].copy_from_slice(&first.to_be_bytes());
        let mut len = 17;
        if let Some(second) = second {
            sealed[17..].copy_from_slice(&second.to_be_bytes());
            len = 33;
        }
        assert_eq!(rt; bytes.as_slice(), &sealed[..len]);
        let opened = open_accept(&NWK_KEY, kind, DEVICE, JOIN_EUI, counter, bytes.as_slice());
        assert_eq!(rt; opened, Some(accept));
        sealed[len - 1] ^= 1;
        assert_eq!(rt;
            open_accept(&NWK_KEY, kind, DEVICE, JOIN_EUI, counter, &sealed[..len]),
            None
        );
    }
    let mut join = join_bytes(&NWK_KEY, JOIN_EUI, DEVICE, 0);
    assert!(rt; join_mic_ok(&vault, 1, &join));
    assert!(rt; !join_mic_ok(&vault, 0, &join));
    join[18] ^= 1;
    assert!(rt; !join_mic_ok(&vault, 1, &join));
}

#[test]
fn accepts_are_sealed_and_opened(rt: HostRuntime) -> Result<(), Fail> {
    let keys = table(rt.alloc())?;
    let ring = KeyRing::new(rt.alloc(), &keys).or(Err("memory"))?;
    let other = KeyRing::new(rt.alloc(), &keys).or(Err("memory"))?;
    let encrypt = move |i: u32, kind: RootKind, block: [u8; 16]| -> [u8; 16]
        requires { i < length ring }
        ensures { result ≡ encrypted (root_key ring kind i) block }
    { ring.encrypt(i, kind, block) };
    let decrypt = move |i: u32, kind: RootKind, block: [u8; 16]| -> [u8; 16]
        requires { i < length other }
        ensures { result ≡ decrypted (root_key other kind i) block }
    { other.decrypt(i, kind, block) };
    expect_calls(&rt, &keys, encrypt, decrypt);
    Ok(())
}

#[test]
fn requests_have_their_bytes_and_their_mic(rt: HostRuntime) -> Result<(), Fail> {
    let mut join = [0; 23];
    join[1..17].copy_from_slice(&JOIN.to_be_bytes());
    join[19..].copy_from_slice(&0x843457dau32.to_be_bytes());
    assert_eq!(rt; join_bytes(&NWK_KEY, JOIN_EUI, DEVICE, 0), join);
    let up = JoinUp::Join {
        join_eui: JOIN_EUI,
        dev_eui: DEVICE,
        nonce: 0,
        mic: [0x84, 0x34, 0x57, 0xda],
    };
    assert_eq!(rt; read_up(&join), Ok(up));
    let s_key: [u8; 16] = std::array::from_fn(|k| k as u8);
    let net = NetId::new(0x600005).ok_or("net")?;
    for (kind, mic) in [(0, 0xb69046f1u32), (2, 0x501b7bb8)] {
        let mut frame = rejoin02_bytes(&s_key, kind, net, DEVICE, 0x0102);
        let up = JoinUp::Rejoin02 {
            kind,
            net,
            dev_eui: DEVICE,
            count: 0x0102,
            mic: mic.to_be_bytes(),
        };
        assert_eq!(rt; read_up(&frame), Ok(up));
        assert!(rt; rejoin_mic_ok(&s_key, &frame));
        frame[18] ^= 0x80;
        assert!(rt; !rejoin_mic_ok(&s_key, &frame));
    }
    let frame = rejoin1_bytes(&NWK_KEY, JOIN_EUI, DEVICE, 65535);
    let up = JoinUp::Rejoin1 {
        join_eui: JOIN_EUI,
        dev_eui: DEVICE,
        count: 65535,
        mic: [0x0c, 0x8e, 0xc8, 0xc6],
    };
    assert_eq!(rt; read_up(&frame), Ok(up));
    assert!(rt; rejoin_mic_ok(&js_int_of(&NWK_KEY, DEVICE), &frame));
    Ok(())
}
