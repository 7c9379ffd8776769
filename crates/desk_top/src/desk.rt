//! The desk on its journal: opened on a keeper, with the keys of its tables.

ghost use Rattle.std.specs.Prelude.{◌≡◌, ◌+◌, ◌^◌, ◌<◌, ◌≤◌, length, vec_len, Ok, IfOk};
ghost use Rattle.aes_cmac.specs.Aes.{encrypted, decrypted};
ghost use Rattle.key_vault.specs.Table.{Serves as ServesKeys, Encrypts, Decrypts, root_key};
ghost use Rattle.agreements.specs.Walk.{tables_of};
ghost use Rattle.desk_top.specs.Journals.{TellsBook};
ghost use Rattle.desk_top.specs.Output.{key_table};
ghost use Rattle.desk_top.specs.Runs.{seen, seen_clock, seen_keeper};
ghost use Rattle.desk_top.specs.Tasks.{HasRow, RunsTask};

use crate::ended::Ended;
use crate::fault::{Fault, Stop};
use crate::last_line::bad_entry_text;
use crate::opening::TablesText;
use crate::task::{Task, serve};
use agreements::Tables;
use book::{Book, BookFault};
use disk_model::{Clock, Held, Sink, Source, Steps};
use keepers::Keeper;
use key_vault::{BlockFn, KeyRing, RootKind, Vault};
use std::alloc::Global;
use std::sync::ledger::Ledger;
use wire_ids::{Memory, Moment, RootKeys};

// Why a book isn't opened, with the line that tells it.
fn stop_of(alloc: Global, fault: BookFault) -> Fault
    ensures { TellsBook fault result }
{
    match fault {
        BookFault::KeeperFault => Fault::Journal(Stop::Failed),
        BookFault::Full => Fault::Journal(Stop::Full),
        BookFault::OtherTables => Fault::Journal(Stop::OtherTables),
        BookFault::BadEntry { number } => match bad_entry_text(alloc, number) {
            Ok(line) => Fault::Journal(Stop::BadEntry(line)),
            Err(_) => Fault::Memory,
        },
        BookFault::Memory => Fault::Memory,
    }
}

// Reads the clock, opens the book of a keeper and does the task on it.
fn with_vault<P: Keeper, E: BlockFn, D: BlockFn, T: Source, O: Sink, K: Clock, G: Ledger>(
    alloc: Global,
    limit: u64,
    task: Task,
    opened: TablesText,
    vault: Vault<E, D>,
    keeper: P,
    input: &mut T,
    out: &mut O,
    clock: &mut K,
    steps: &mut Steps<G>,
) -> Ended<P>
    requires limit { limit < 2 ^ 62 }
    requires rests { P.rests keeper }
    requires text { tables_of opened.text ≡ Ok opened.tables }
    requires row { HasRow opened.tables task }
    requires keys { vault ≡ key_table opened.tables }
    // What it came to, by how it ended.
    ensures { RunsTask P.fills P.holds P.rests P.doubts limit task opened.tables opened.text
        (record {
          input = seen T.left T.faults input.old;
          input_after = seen T.left T.faults input.new;
          out = seen O.written O.faults out.old;
          out_after = seen O.written O.faults out.new;
          base = seen_keeper P.records P.faults P.changes P.counted keeper;
          base_after = seen_keeper P.records P.faults P.changes P.counted result.object;
          clock = seen_clock K.tells clock.old;
          clock_after = seen_clock K.tells clock.new;
          steps = steps.old;
          steps_after = steps.new;
        }) result.end }
{
    let TablesText { tables, text } = opened;
    let now = Moment(clock.now());
    let mut book = match Book::open(alloc, keeper, tables, text, vault, now, steps) {
        Ok(book) => book,
        Err(Held { object, fault }) => {
            return Ended {
                object,
                end: Err(stop_of(alloc, fault)),
            };
        }
    };
    let end = serve(alloc, limit, task, &mut book, input, out, clock);
    book.sound();
    Ended {
        object: book.into_keeper(),
        end,
    }
}

// The same with a vault over these two closures, which has no raw key.
fn with_closures<P: Keeper, E: BlockFn, D: BlockFn, T: Source, O: Sink, K: Clock, G: Ledger>(
    alloc: Global,
    limit: u64,
    task: Task,
    opened: TablesText,
    keys: Vec<RootKeys>,
    encrypt: E,
    decrypt: D,
    keeper: P,
    input: &mut T,
    out: &mut O,
    clock: &mut K,
    steps: &mut Steps<G>,
) -> Ended<P>
    requires limit { limit < 2 ^ 62 }
    requires rests { P.rests keeper }
    requires text { tables_of opened.text ≡ Ok opened.tables }
    requires row { HasRow opened.tables task }
    requires rows { keys.items ≡ key_table opened.tables }
    requires few { vec_len keys ≤ 4096 }
    requires may_encrypt { ServesKeys (E.may encrypt) (vec_len keys) }
    requires encrypts { Encrypts (E.gives encrypt) keys.items }
    requires may_decrypt { ServesKeys (D.may decrypt) (vec_len keys) }
    requires decrypts { Decrypts (D.gives decrypt) keys.items }
    // What it came to, by how it ended.
    ensures { RunsTask P.fills P.holds P.rests P.doubts limit task opened.tables opened.text
        (record {
          input = seen T.left T.faults input.old;
          input_after = seen T.left T.faults input.new;
          out = seen O.written O.faults out.old;
          out_after = seen O.written O.faults out.new;
          base = seen_keeper P.records P.faults P.changes P.counted keeper;
          base_after = seen_keeper P.records P.faults P.changes P.counted result.object;
          clock = seen_clock K.tells clock.old;
          clock_after = seen_clock K.tells clock.new;
          steps = steps.old;
          steps_after = steps.new;
        }) result.end }
{
    let vault = Vault::new(&keys, encrypt, decrypt);
    drop(keys);
    with_vault(
        alloc, limit, task, opened, vault, keeper, input, out, clock, steps,
    )
}

// The keys of the tables, and the ring that encrypts and decrypts under them.
fn keys_of(alloc: Global, tables: &Tables) -> Result<(Vec<RootKeys>, KeyRing), Memory>
    ensures keys { IfOk result (λ p. p.0.items ≡ key_table tables.now) }
    ensures ring { IfOk result (λ p. p.1 ≡ p.0.items) }
{
    let keys = tables.root_keys(alloc)?;
    let ring = KeyRing::new(alloc, &keys)?;
    Ok((keys, ring))
}

/// Opens the desk of these tables on a keeper, with their keys, and does the task. The closures of
/// the vault share a key ring, and keep no row of the tables.
pub(crate) fn run_desk<P: Keeper, T: Source, O: Sink, K: Clock, G: Ledger>(
    alloc: Global,
    limit: u64,
    task: Task,
    opened: TablesText,
    keeper: P,
    input: &mut T,
    out: &mut O,
    clock: &mut K,
    steps: &mut Steps<G>,
) -> Ended<P>
    requires limit { limit < 2 ^ 62 }
    requires rests { P.rests keeper }
    requires text { tables_of opened.text ≡ Ok opened.tables }
    requires row { HasRow opened.tables task }
    // What it came to, by how it ended.
    ensures { RunsTask P.fills P.holds P.rests P.doubts limit task opened.tables opened.text
        (record {
          input = seen T.left T.faults input.old;
          input_after = seen T.left T.faults input.new;
          out = seen O.written O.faults out.old;
          out_after = seen O.written O.faults out.new;
          base = seen_keeper P.records P.faults P.changes P.counted keeper;
          base_after = seen_keeper P.records P.faults P.changes P.counted result.object;
          clock = seen_clock K.tells clock.old;
          clock_after = seen_clock K.tells clock.new;
          steps = steps.old;
          steps_after = steps.new;
        }) result.end }
{
    let count = opened.tables.devices().len();
    prove!(count <= 4096);
    let (keys, ring) = match keys_of(alloc, &opened.tables) {
        Ok(keys_and_ring) => keys_and_ring,
        Err(Memory) => {
            return Ended {
                object: keeper,
                end: Err(Fault::Memory),
            };
        }
    };
    let encrypt = |i: u32, kind: RootKind, block: [u8; 16]| -> [u8; 16]
        requires { i < length ring }
        ensures { result ≡ encrypted (root_key ring kind i) block }
    { ring.encrypt(i, kind, block) };
    let decrypt = |i: u32, kind: RootKind, block: [u8; 16]| -> [u8; 16]
        requires { i < length ring }
        ensures { result ≡ decrypted (root_key ring kind i) block }
    { ring.decrypt(i, kind, block) };
    with_closures(
        alloc, limit, task, opened, keys, encrypt, decrypt, keeper, input, out, clock, steps,
    )
}
