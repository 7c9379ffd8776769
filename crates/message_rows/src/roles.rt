use agreements::{Tables, read_tables};
use entitlement::{AnswerKind, Facts, KeySet, Role, keys_for, role_of};
use std::process::Abort;
use std::test::Fail;
use wire_ids::{Eui, Moment, NetId, Sender};

const TABLES: &[u8] = b"
[desk]
net_id = \"000013\"
join_euis = [\"70b3d57ed0000001\"]
dl_settings = \"80\"
rx_delay = 1
[[network]]
net_id = \"000014\"
kek_label = \"net-14\"
kek = \"000102030405060708090a0b0c0d0e0f\"
address = \"a:1\"
[[network]]
net_id = \"000015\"
kek_label = \"net-15\"
kek = \"000102030405060708090a0b0c0d0e0f\"
address = \"a:2\"
[[application]]
app_id = \"a000000000000001\"
kek_label = \"app-1\"
kek = \"000102030405060708090a0b0c0d0e0f\"
[[device]]
dev_eui = \"70b3d57ed0001001\"
join_eui = \"70b3d57ed0000001\"
nwk_key = \"000102030405060708090a0b0c0d0e0f\"
app_key = \"000102030405060708090a0b0c0d0e0f\"
home = \"000014\"
app = \"a000000000000001\"
";

fn letters(keys: KeySet) -> &'static str {
    match (keys.f, keys.s, keys.e, keys.app) {
        (true, true, true, true) => "FSEA",
        (true, true, true, false) => "FSE",
        (true, false, false, false) => "F",
        (false, false, false, true) => "A",
        (false, false, false, false) => "",
        _ => "?",
    }
}

// What the receiver of an answer is to the first device at a moment, and which keys it gets, where
// the row says `carry_app` and the Lifetime is 600, and with neither. The device is lent to 000015,
// and granted to all, until 1001.
fn expect(
    rt: &impl Abort,
    tables: &Tables,
    now: u64,
    receiver: Sender,
    asked: AnswerKind,
    want: Role,
    keys: &str,
    bare: &str,
) {
    let facts = Facts {
        lent: Some((NetId::from_be_bytes([0, 0, 0x15]), Moment(1001))),
        granted: Some(Moment(1001)),
        now: Moment(now),
    };
    if tables.devices().is_empty() {
        panic!(rt; "no device");
    }
    let role = role_of(tables, &facts, 0, receiver, asked);
    assert!(rt; role == want);
    let got = letters(keys_for(asked, role, true, 600));
    assert!(rt; got == keys);
    let got = letters(keys_for(asked, role, false, 0));
    assert!(rt; got == bare);
}

#[test]
fn each_receiver_gets_the_keys_of_its_role(rt: HostRuntime) -> Result<(), Fail> {
    let Ok(tables) = read_tables(rt.alloc(), TABLES) else {
        return Err(Fail::from("tables"));
    };
    for (now, low, asked, role, keys, bare) in [
        (1000, 0x14, AnswerKind::JoinAns, Role::Home, "FSEA", "FSE"),
        (1000, 0x14, AnswerKind::RejoinAns, Role::Home, "FSEA", "FSE"),
        (1000, 0x14, AnswerKind::HRStartAns, Role::Stranger, "", ""),
        (1000, 0x14, AnswerKind::AppSKeyAns, Role::Stranger, "", ""),
        (1000, 0x14, AnswerKind::OtherAns, Role::Stranger, "", ""),
        (1000, 0x15, AnswerKind::JoinAns, Role::Stranger, "", ""),
        (
            1000,
            0x15,
            AnswerKind::HRStartAns,
            Role::Serving,
            "FSE",
            "FSE",
        ),
        (1001, 0x15, AnswerKind::HRStartAns, Role::Stranger, "", ""),
        (
            1000,
            0x15,
            AnswerKind::PRStartAns,
            Role::Forwarding,
            "F",
            "",
        ),
        (1001, 0x15, AnswerKind::PRStartAns, Role::Stranger, "", ""),
    ] {
        let receiver = Sender::Network(NetId::from_be_bytes([0, 0, low]));
        expect(&rt, &tables, now, receiver, asked, role, keys, bare);
    }
    for (id, asked, role, keys, bare) in [
        (
            0xa000000000000001,
            AnswerKind::AppSKeyAns,
            Role::Application,
            "A",
            "A",
        ),
        (
            0xa000000000000001,
            AnswerKind::JoinAns,
            Role::Stranger,
            "",
            "",
        ),
        (
            0xb000000000000001,
            AnswerKind::AppSKeyAns,
            Role::Stranger,
            "",
            "",
        ),
    ] {
        expect(
            &rt,
            &tables,
            1000,
            Sender::Party(Eui(id)),
            asked,
            role,
            keys,
            bare,
        );
    }
    Ok(())
}
