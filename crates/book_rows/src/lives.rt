//! A life opens a book, answers two joins and suspends their device. The MICs are another's.

ghost use Rattle.std.specs.Prelude.{◌≡◌, ◌<◌, ◌≤◌, length, map, vec_len, Ok};
ghost use Rattle.aes_cmac.specs.Aes.{encrypted, decrypted};
ghost use Rattle.agreements.specs.LookUps.{keys_of};
ghost use Rattle.agreements.specs.Walk.{tables_of};
ghost use Rattle.key_vault.specs.Table.{Serves, Encrypts, Decrypts, root_key};

use agreements::{Tables, read_tables};
use book::{Answered, Book, BookFault, Marked};
use disk_model::{Disk, FuseDisk, Held, MemoryDisk, Steps};
use keepers::{JournalKeeper, Keeper, MemoryKeeper};
use key_vault::{BlockFn, KeyRing, RootKind, Vault};
use std::alloc::Global;
use std::marker::Brand;
use std::sync::ledger::{Blank, Ledger};
use std::test::Fail;
use wire_ids::{Moment, RootKeys, Text};

const TABLES: &[u8] = b"
[desk]
net_id = \"000013\"
join_euis = [\"70b3d57ed0000001\"]
dl_settings = \"80\"
rx_delay = 1
[[network]]
net_id = \"000014\"
kek_label = \"net-14\"
kek = \"000102030405060708090a0b0c0d0e0f\"
address = \"a:1\"
[[application]]
app_id = \"a000000000000001\"
kek_label = \"app-1\"
kek = \"000102030405060708090a0b0c0d0e0f\"
[[device]]
dev_eui = \"70b3d57ed0001001\"
join_eui = \"70b3d57ed0000001\"
nwk_key = \"101112131415161718191a1b1c1d1e1f\"
app_key = \"000102030405060708090a0b0c0d0e0f\"
home = \"000014\"
app = \"a000000000000001\"
";

// Join-requests with the DevNonces 5 and 6.
const FRAMES: [&str; 2] = [
    "00010000d07ed5b370011000d07ed5b370050080365708",
    "00010000d07ed5b370011000d07ed5b3700600e9bc6b74",
];

/// What a life gave.
#[derive(Drop)]
pub struct Given {
    /// The steps that its opening counted, or why it was refused.
    pub opening: Result<u64, BookFault>,
    answers: Vec<Text>,
    marked: Option<Marked>,
    join_nonce: Option<u32>,
}

impl Given {
    // What it gives where its book isn't opened.
    fn refused(alloc: Global, fault: BookFault) -> Given {
        Given {
            opening: Err(fault),
            answers: Vec::new(alloc),
            marked: None,
            join_nonce: None,
        }
    }
}

// The number of these steps, which take no bytes, so another count has to be shown to be theirs.
fn number_of<G: Ledger>(steps: &Steps<G>, count: u64) -> u64
    requires { count ≡ steps.now }
    ensures { result ≡ steps.now }
{
    count
}

// The line of this frame.
fn line_of(alloc: Global, frame: &str) -> Result<String, Fail> {
    Ok(format!(in alloc;
        "{{\"ProtocolVersion\":\"1.1\",\"SenderID\":\"000014\",\
        \"ReceiverID\":\"70b3d57ed0000001\",\"TransactionID\":7,\"MessageType\":\"JoinReq\",\
        \"MACVersion\":\"1.1\",\"PHYPayload\":\"{frame}\",\"DevEUI\":\"70b3d57ed0001001\",\
        \"DevAddr\":\"28000001\",\"DLSettings\":\"80\",\"RxDelay\":1}}"
    )?)
}

// Answers the lines, one after another, up to the first that isn't answered.
fn answers<K: Keeper + Drop, E: BlockFn, D: BlockFn>(
    alloc: Global,
    book: &mut Book<K, E, D>,
) -> Result<Vec<Text>, Fail> {
    let mut answers = Vec::new(alloc);
    for frame in FRAMES {
        if !book.is_whole() {
            return Ok(answers);
        }
        let line = line_of(alloc, frame)?;
        match book.answer(alloc, line.as_bytes(), Moment(1000)) {
            Answered::Answer { bytes, .. } => answers.push(bytes).or(Err("memory"))?,
            _ => return Ok(answers),
        }
    }
    Ok(answers)
}

// What a book gives that was opened in so many steps, and its keeper.
fn run<K: Keeper + Drop, E: BlockFn, D: BlockFn>(
    alloc: Global,
    book: Book<K, E, D>,
    steps: u64,
) -> Result<(Given, K), Fail> {
    let mut book = book;
    let answers = answers(alloc, &mut book)?;
    let marked = if answers.len() == 2 && book.is_whole() && book.tables().devices().len() == 1 {
        Some(book.suspend(alloc, 0, Moment(1001)))
    } else {
        None
    };
    let join_nonce = match book.state().devices().first() {
        None => None,
        Some(device) => Some(device.join_nonce.get()),
    };
    let given = Given {
        opening: Ok(steps),
        answers,
        marked,
        join_nonce,
    };
    Ok((given, book.into_keeper()))
}

// A life over a keeper, and the keeper.
fn life<K: Keeper + Drop, E: BlockFn, D: BlockFn, G: Ledger>(
    alloc: Global,
    keeper: K,
    tables: Tables,
    keys: &Vec<RootKeys>,
    encrypt: E,
    decrypt: D,
    blank: Blank,
) -> Result<(Given, K), Fail>
    requires rests { K.rests keeper }
    requires text { tables_of TABLES.now ≡ Ok tables }
    requires rows { keys.now.items ≡ map keys_of tables.devices }
    requires few { vec_len keys.now ≤ 4096 }
    requires may_encrypt { Serves (E.may encrypt) (vec_len keys.now) }
    requires encrypts { Encrypts (E.gives encrypt) keys.now.items }
    requires may_decrypt { Serves (D.may decrypt) (vec_len keys.now) }
    requires decrypts { Decrypts (D.gives decrypt) keys.now.items }
    requires name { blank.name ≡ G.name }
    requires parts { blank.parts ≡ G.parts }
    requires some { 0 < blank.parts }
{
    let text = Text::of_slice(alloc, TABLES).or(Err("memory"))?;
    let vault = Vault::new(keys, encrypt, decrypt);
    let mut steps = Steps::<G>::new(blank);
    let count = keeper.count();
    match Book::open(alloc, keeper, tables, text, vault, Moment(1000), &mut steps) {
        Ok(book) => run(alloc, book, number_of(&steps, count)),
        Err(Held { object, fault }) => Ok((Given::refused(alloc, fault), object)),
    }
}

// A life on a disk in memory that stops after so many calls, and then one without a stop.
fn stopped_after(alloc: Global, calls: u64) -> Result<(Given, Given), Fail> {
    let disk = MemoryDisk::new(alloc, b"", 8192, 999, Vec::new(alloc)).or(Err("memory"))?;
    let (first, left) = match JournalKeeper::open(alloc, FuseDisk::new(disk, calls)) {
        Err(held) => (None, held.object),
        Ok(keeper) => {
            let (given, keeper) = lived(alloc, keeper)?;
            (Some(given), keeper.into_disk())
        }
    };
    let Ok(keeper) = JournalKeeper::open(alloc, left.into_disk()) else {
        return Err(Fail::from("no journal"));
    };
    let (second, _) = lived(alloc, keeper)?;
    let first = match first {
        Some(given) => given,
        None => Given::refused(alloc, BookFault::KeeperFault),
    };
    Ok((first, second))
}

// A life over a keeper, with the keys of the tables.
fn keyed<K: Keeper + Drop, G: Ledger>(
    alloc: Global,
    keeper: K,
    blank: Blank,
) -> Result<(Given, K), Fail>
    requires rests { K.rests keeper }
    requires name { blank.name ≡ G.name }
    requires parts { blank.parts ≡ G.parts }
    requires some { 0 < blank.parts }
{
    let Ok(tables) = read_tables(alloc, TABLES) else {
        return Err(Fail::from("tables"));
    };
    let count = tables.devices().len();
    prove!(count <= 4096);
    let keys = tables.root_keys(alloc).or(Err("memory"))?;
    let ring = KeyRing::new(alloc, &keys).or(Err("memory"))?;
    let other = KeyRing::new(alloc, &keys).or(Err("memory"))?;
    let encrypt = move |i: u32, kind: RootKind, block: [u8; 16]| -> [u8; 16]
        requires { i < length ring }
        ensures { result ≡ encrypted (root_key ring kind i) block }
    { ring.encrypt(i, kind, block) };
    let decrypt = move |i: u32, kind: RootKind, block: [u8; 16]| -> [u8; 16]
        requires { i < length other }
        ensures { result ≡ decrypted (root_key other kind i) block }
    { other.decrypt(i, kind, block) };
    life::<K, _, _, G>(alloc, keeper, tables, &keys, encrypt, decrypt, blank)
}

/// A life over a keeper.
pub fn lived<K: Keeper + Drop>(alloc: Global, keeper: K) -> Result<(Given, K), Fail>
    requires { K.rests keeper }
{
    keyed::<K, Brand>(alloc, keeper, Blank::new(1))
}

// However many calls the disk passes on, the second life answers each body that the first has
// answered by the same bytes, the joins have two JoinNonces, and the device ends suspended.
#[test]
fn lives_go_on_after_each_stop(rt: HostRuntime) -> Result<(), Fail> {
    let alloc = rt.alloc();
    let mut ends_marked = false;
    for calls in 0..48 {
        let (first, second) = stopped_after(alloc, calls)?;
        assert_eq!(rt; second.answers.len(), 2);
        for (before, after) in first.answers.iter().zip(second.answers.iter()) {
            assert!(rt; before == after);
        }
        assert!(rt; second.answers.first() != second.answers.get(1));
        assert_eq!(rt; second.join_nonce, Some(2));
        if first.marked == Some(Marked::Done) {
            ends_marked = true;
            assert_eq!(rt; second.marked, Some(Marked::Already));
        }
    }
    assert!(rt; ends_marked);
    Ok(())
}

// A book in memory answers alike, and its second life too.
#[test]
fn a_book_in_memory_answers(rt: HostRuntime) -> Result<(), Fail> {
    let alloc = rt.alloc();
    let (first, keeper) = lived(alloc, MemoryKeeper::new(alloc))?;
    let (second, _) = lived(alloc, keeper)?;
    assert_eq!(rt; first.answers.len(), 2);
    assert!(rt; first.answers == second.answers);
    assert_eq!(rt; first.marked, Some(Marked::Done));
    assert_eq!(rt; second.marked, Some(Marked::Already));
    assert_eq!(rt; second.join_nonce, Some(2));
    Ok(())
}
