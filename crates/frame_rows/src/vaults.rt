ghost use Rattle.std.specs.Prelude.{◌≡◌, ◌<◌, ◌≤◌, length, vec_len, IfOk};
ghost use Rattle.aes_cmac.specs.Aes.{encrypted, decrypted};
ghost use Rattle.key_vault.specs.Table.{Serves, Encrypts, Decrypts, root_key};

use aes_cmac::RoundKeys;
use key_vault::{
    BlockFn, KeyRing, RootKind, Vault, app_s_key_of, js_enc_of, js_int_of, session_keys_of,
};
use std::alloc::{AllocError, Global};
use std::process::Abort;
use std::test::Fail;
use wire_ids::{Eui, Nonce24, RootKeys, Seed};

const NWK_KEY: u128 = 0x101112131415161718191a1b1c1d1e1f;

const APP_KEY: u128 = 0xa0a1a2a3a4a5a6a7a8a9aaabacadaeaf;

const DEVICE: Eui = Eui(0x70b3d57ed0001021);

const JS_INT: u128 = 0x92dfcef546eebce37dff1368bb0c36aa;

const JS_ENC: u128 = 0x5af5caeffa02bd5450bd73e43dc01005;

const SESSION: [u128; 3] = [
    0x48bbc4bf3e8d1270e97dff9d29e38bc0,
    0x06281ef00ba4706e2ffbae66cde1943a,
    0x941d1e2b30543e0d19552cf8daa74cf8,
];

const PLAIN: [u128; 2] = [
    0x000102030405060708090a0b0c0d0e0f,
    0x808182838485868788898a8b8c8d8e8f,
];

const JOIN: [u128; 2] = [
    0x5be480de16c2a7e3a50457a1b2962804,
    0xcd2bcc53d8d2e4db54b582da95ea8a2b,
];

const REJOIN: [u128; 2] = [
    0xce314ce73b77d394df6860edd759623b,
    0xa13955828c585a95cfdca42e6916c4ba,
];

const APP_S: u128 = 0x84c9a4236871bf6d8bbf6de5aebf4fc2;

// A table whose second row has the keys above.
fn table(alloc: Global) -> Result<Vec<RootKeys>, AllocError>
    ensures { IfOk result (λ keys. vec_len keys ≡ 2) }
{
    let first = RootKeys {
        nwk: [0; 16],
        app: [0; 16],
    };
    let second = RootKeys {
        nwk: NWK_KEY.to_be_bytes(),
        app: APP_KEY.to_be_bytes(),
    };
    Ok(vec![in alloc; first, second]?)
}

fn seed() -> Option<Seed> {
    Some(Seed {
        nonce: Nonce24::new(0x0a0b0c)?,
        join_eui: Eui(0x70b3d57ed0000001),
        counter: 0x1234,
    })
}

fn number(block: [u8; 16]) -> u128 {
    u128::from_be_bytes(block)
}

// Each call at the second row of a vault. The values are another library's.
fn expect_calls<E: BlockFn, D: BlockFn>(
    rt: &impl Abort,
    keys: &Vec<RootKeys>,
    encrypt: E,
    decrypt: D,
    seed: &Seed,
)
    requires two { vec_len keys.now ≡ 2 }
    requires may_encrypt { Serves (E.may encrypt) (vec_len keys.now) }
    requires encrypts { Encrypts (E.gives encrypt) keys.now.items }
    requires may_decrypt { Serves (D.may decrypt) (vec_len keys.now) }
    requires decrypts { Decrypts (D.gives decrypt) keys.now.items }
{
    let vault = Vault::new(keys, encrypt, decrypt);
    let nwk = NWK_KEY.to_be_bytes();
    for js_int in [vault.js_int(1, DEVICE), js_int_of(&nwk, DEVICE)] {
        assert_eq!(rt; number(js_int), JS_INT);
    }
    for js_enc in [vault.js_enc(1, DEVICE), js_enc_of(&nwk, DEVICE)] {
        assert_eq!(rt; number(js_enc), JS_ENC);
    }
    for session in [vault.session_keys(1, seed), session_keys_of(&nwk, seed)] {
        assert_eq!(rt;
            [number(session.f), number(session.s), number(session.e)],
            SESSION
        );
    }
    for app_s in [
        vault.app_s_key(1, seed),
        app_s_key_of(&APP_KEY.to_be_bytes(), seed),
    ] {
        assert_eq!(rt; number(app_s), APP_S);
    }
    let text: [u8; 19] = std::array::from_fn(|k| k as u8);
    for (len, mac) in [
        (0, 0x5edcab55a50e659dda98ceb1c8809c01),
        (16, 0x94b0e7f347fc6eda538d270ca83b5c74),
        (19, 0xf661343f5d2141186dd821c9c7921933),
    ] {
        assert_eq!(rt; number(vault.nwk_cmac(1, &text[..len])), mac);
    }
    for (rejoin, sealed) in [(false, JOIN), (true, REJOIN)] {
        let mut blocks = [PLAIN[0].to_be_bytes(), PLAIN[1].to_be_bytes()];
        vault.seal(1, DEVICE, rejoin, &mut blocks);
        assert_eq!(rt; [number(blocks[0]), number(blocks[1])], sealed);
    }
}

#[test]
fn a_vault_over_key_rings_has_the_keys(rt: HostRuntime) -> Result<(), Fail> {
    let keys = table(rt.alloc())?;
    let ring = KeyRing::new(rt.alloc(), &keys).or(Err("memory"))?;
    let other = KeyRing::new(rt.alloc(), &keys).or(Err("memory"))?;
    let encrypt = move |i: u32, kind: RootKind, block: [u8; 16]| -> [u8; 16]
        requires { i < length ring }
        ensures { result ≡ encrypted (root_key ring kind i) block }
    { ring.encrypt(i, kind, block) };
    let decrypt = move |i: u32, kind: RootKind, block: [u8; 16]| -> [u8; 16]
        requires { i < length other }
        ensures { result ≡ decrypted (root_key other kind i) block }
    { other.decrypt(i, kind, block) };
    let seed = seed().ok_or("seed")?;
    expect_calls(&rt, &keys, encrypt, decrypt, &seed);
    Ok(())
}

// The key of a row, whose schedule is made anew at each call.
fn round_keys(keys: &Vec<RootKeys>, i: u32, kind: RootKind) -> RoundKeys
    requires { i < vec_len keys.now }
    ensures { result ≡ root_key keys.now.items kind i }
{
    let row = &keys[i as usize];
    match kind {
        RootKind::Nwk => RoundKeys::new(&row.nwk),
        RootKind::App => RoundKeys::new(&row.app),
    }
}

#[test]
fn a_vault_over_other_closures_has_the_same_keys(rt: HostRuntime) -> Result<(), Fail> {
    let keys = table(rt.alloc())?;
    let own = keys.clone()?;
    let other = keys.clone()?;
    let encrypt = move |i: u32, kind: RootKind, block: [u8; 16]| -> [u8; 16]
        requires { i < vec_len own }
        ensures { result ≡ encrypted (root_key own.items kind i) block }
    { round_keys(&own, i, kind).encrypt(block) };
    let decrypt = move |i: u32, kind: RootKind, block: [u8; 16]| -> [u8; 16]
        requires { i < vec_len other }
        ensures { result ≡ decrypted (root_key other.items kind i) block }
    { round_keys(&other, i, kind).decrypt(block) };
    let seed = seed().ok_or("seed")?;
    expect_calls(&rt, &keys, encrypt, decrypt, &seed);
    Ok(())
}
