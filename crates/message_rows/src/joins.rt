//! The end of a device's JoinNonces, over entries that are applied. The MICs are another program's.

ghost use Rattle.std.specs.Prelude.{◌≡◌, ◌<◌, ◌≤◌, length, map, vec_len};
ghost use Rattle.aes_cmac.specs.Aes.{encrypted, decrypted};
ghost use Rattle.agreements.specs.LookUps.{keys_of};
ghost use Rattle.key_vault.specs.Table.{Serves, Encrypts, Decrypts, root_key};

use agreements::{Tables, read_tables};
use backend_json::{Answer, Outcome, read_message};
use entries::{Change, Entry, Event, Joined, Request};
use entry_codec::State;
use js_core::{JsDecision, js_decide};
use key_vault::{BlockFn, KeyRing, RootKind, Vault};
use std::alloc::Global;
use std::process::Abort;
use std::test::Fail;
use wire_ids::{Decision, LongText, Memory, Moment, NetId, Nonce24, RootKeys, Sender, ShortText};

const TABLES: &[u8] = b"
[desk]
net_id = \"000013\"
join_euis = [\"70b3d57ed0000001\"]
dl_settings = \"80\"
rx_delay = 1
[[network]]
net_id = \"000014\"
kek_label = \"net-14\"
kek = \"000102030405060708090a0b0c0d0e0f\"
address = \"a:1\"
[[application]]
app_id = \"a000000000000001\"
kek_label = \"app-1\"
kek = \"000102030405060708090a0b0c0d0e0f\"
[[device]]
dev_eui = \"70b3d57ed0001001\"
join_eui = \"70b3d57ed0000001\"
nwk_key = \"101112131415161718191a1b1c1d1e1f\"
app_key = \"000102030405060708090a0b0c0d0e0f\"
home = \"000014\"
app = \"a000000000000001\"
";

// Join-requests with the DevNonces 5 and 6.
const DEV_NONCE_5: &str = "00010000d07ed5b370011000d07ed5b370050080365708";

const DEV_NONCE_6: &str = "00010000d07ed5b370011000d07ed5b3700600e9bc6b74";

// What a join comes to: the number of its refusal in their order, or its JoinNonce.
#[derive(Clone, Copy, PartialEq, Eq)]
enum JoinOutcome {
    Refused(u8),
    Accepted(u32),
    Otherwise,
}

// After a join with the DevNonce 5 and this JoinNonce.
const ROWS: [(u32, &str, JoinOutcome); 4] = [
    (0xFF_FFFE, DEV_NONCE_6, JoinOutcome::Accepted(0xFF_FFFF)),
    (0xFF_FFFF, DEV_NONCE_6, JoinOutcome::Refused(21)),
    (0xFF_FFFF, DEV_NONCE_5, JoinOutcome::Refused(20)),
    (0xFF_FFFE, DEV_NONCE_5, JoinOutcome::Refused(20)),
];

fn outcome_of(decision: &JsDecision<'_>) -> JoinOutcome {
    match decision {
        Decision::Reply(Answer::Headed { outcome, .. }) => match outcome {
            Outcome::Refused(refusal) => match refusal.number() {
                Some(number) => JoinOutcome::Refused(number),
                None => JoinOutcome::Otherwise,
            },
            _ => JoinOutcome::Otherwise,
        },
        Decision::Accept(_, Change::Join(joined)) => JoinOutcome::Accepted(joined.join_nonce.get()),
        _ => JoinOutcome::Otherwise,
    }
}

// An event of the moment 1000, where it fits.
fn enter(state: &mut State, event: Event) -> Result<(), Memory> {
    let moment = Moment(1000);
    let entry = Entry { moment, event };
    if state.fits(&entry) {
        state.reserve(&entry)?;
        state.apply(entry);
    }
    Ok(())
}

// The state after a join of the first device with the DevNonce 5 and this JoinNonce.
fn joined(alloc: Global, tables: &Tables, join_nonce: u32) -> Result<State, Memory> {
    let mut state = State::new(alloc, tables)?;
    let text = LongText::of_slice(alloc, b"")?.ok_or(Memory)?;
    enter(&mut state, Event::Tables(text))?;
    let request = Request {
        sender: Sender::Network(NetId::from_be_bytes([0, 0, 0x14])),
        body: ShortText::of_slice(alloc, b"")?.ok_or(Memory)?,
        answer: ShortText::of_slice(alloc, b"")?.ok_or(Memory)?,
    };
    let change = Change::Join(Joined {
        device: 0,
        counter: 5,
        join_nonce: Nonce24::new(join_nonce).ok_or(Memory)?,
        own: None,
    });
    enter(&mut state, Event::Kept(request, change))?;
    Ok(state)
}

// What the JoinReq with this frame comes to in a state.
fn decided<E: BlockFn, D: BlockFn>(
    alloc: Global,
    tables: &Tables,
    vault: &Vault<E, D>,
    state: &State,
    frame: &str,
) -> Result<JoinOutcome, Memory>
    requires { vault.now ≡ map keys_of tables.now.devices }
{
    let line = format!(in alloc;
        "{{\"ProtocolVersion\":\"1.1\",\"SenderID\":\"000014\",\
        \"ReceiverID\":\"70b3d57ed0000001\",\"TransactionID\":7,\"MessageType\":\"JoinReq\",\
        \"MACVersion\":\"1.1\",\"PHYPayload\":\"{frame}\",\"DevEUI\":\"70b3d57ed0001001\",\
        \"DevAddr\":\"28000001\",\"DLSettings\":\"80\",\"RxDelay\":1}}"
    )?;
    match read_message(alloc, line.as_bytes())? {
        Err(_) => Ok(JoinOutcome::Otherwise),
        Ok(message) => {
            let decision = js_decide(alloc, tables, vault, state, message, Moment(1000))?;
            Ok(outcome_of(&decision))
        }
    }
}

fn expect_rows<E: BlockFn, D: BlockFn>(
    rt: &impl Abort,
    alloc: Global,
    tables: &Tables,
    keys: &Vec<RootKeys>,
    encrypt: E,
    decrypt: D,
) -> Result<(), Memory>
    requires rows { keys.now.items ≡ map keys_of tables.now.devices }
    requires few { vec_len keys.now ≤ 4096 }
    requires may_encrypt { Serves (E.may encrypt) (vec_len keys.now) }
    requires encrypts { Encrypts (E.gives encrypt) keys.now.items }
    requires may_decrypt { Serves (D.may decrypt) (vec_len keys.now) }
    requires decrypts { Decrypts (D.gives decrypt) keys.now.items }
{
    let vault = Vault::new(keys, encrypt, decrypt);
    for (join_nonce, frame, want) in ROWS {
        let state = joined(alloc, tables, join_nonce)?;
        let got = decided(alloc, tables, &vault, &state, frame)?;
        assert!(rt; got == want);
    }
    Ok(())
}

// No JoinNonce comes after the last one. A used DevNonce is refused before that.
#[test]
fn no_join_nonce_comes_after_the_last(rt: HostRuntime) -> Result<(), Fail> {
    let alloc = rt.alloc();
    let Ok(tables) = read_tables(alloc, TABLES) else {
        return Err(Fail::from("tables"));
    };
    let count = tables.devices().len();
    prove!(count <= 4096);
    let keys = tables.root_keys(alloc).or(Err("memory"))?;
    let ring = KeyRing::new(alloc, &keys).or(Err("memory"))?;
    let other = KeyRing::new(alloc, &keys).or(Err("memory"))?;
    let encrypt = move |i: u32, kind: RootKind, block: [u8; 16]| -> [u8; 16]
        requires { i < length ring }
        ensures { result ≡ encrypted (root_key ring kind i) block }
    { ring.encrypt(i, kind, block) };
    let decrypt = move |i: u32, kind: RootKind, block: [u8; 16]| -> [u8; 16]
        requires { i < length other }
        ensures { result ≡ decrypted (root_key other kind i) block }
    { other.decrypt(i, kind, block) };
    expect_rows(&rt, alloc, &tables, &keys, encrypt, decrypt).or(Err("memory"))?;
    Ok(())
}
