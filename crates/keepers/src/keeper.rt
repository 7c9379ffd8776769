ghost use Rattle.std.specs.Prelude.{◌≡◌, ◌+◌, ◌≤◌, ◌<◌, ◌↔◌, ◌++◌, ◌∷◌, [], ℕ, List, length};
ghost use Rattle.std.specs.Prelude.{if◌then◌else◌, option_map, slice_get, true, false};
ghost use Rattle.std.specs.Prelude.{IfOk, OnOk, OnErr, IsErrOf};
ghost use Rattle.wire_ids.specs.Causes.{HasCause, Rose};
ghost use Rattle.disk_model.specs.Disk.{LeavesOnly, WhereTold};
ghost use Rattle.disk_journal.specs.Journal.{WithIf};
ghost use Rattle.keepers.specs.Keeper.{HoldsOnly, Image, MayChange, OneMoreOrNot, Quiet};

/// A call of a keeper failed: its count of faults has risen.
#[derive(Clone, Copy, Debug, PartialEq, Eq)]
pub struct KeeperFault;

/// Why no room was made.
#[derive(Clone, Copy, Debug, PartialEq, Eq)]
pub enum ReadyFault {
    /// The keeper has no room for so much.
    Full,
    /// Want of memory.
    Memory,
}

/// Why a record wasn't read.
#[derive(Clone, Copy, Debug, PartialEq, Eq)]
pub enum KeepReadFault {
    /// A call of the keeper failed: its count of faults has risen.
    KeeperFault,
    /// Want of memory.
    Memory,
}

/// Keeps records, in order. Where it tells them it stands for them, and for the lists that its
/// images hold: what a crash may leave, now and at each moment since an earlier one. An image that
/// holds no list of records is None. It rests, or is in doubt about the one record that it failed
/// to add, and it can be read in both. Its count of faults never falls.
pub trait Keeper {
    /// Its records, where it tells. A keeper over a disk that isn't honest tells nothing.
    ghost records: { Self → Image };

    /// What its images hold now.
    ghost holds: { Self → Image → Type 0 };

    /// A number that never falls.
    ghost moment: { Self → ℕ };

    /// What its images held at some moment from that one on.
    ghost held_since: { Self → ℕ → Image → Type 0 };

    /// How often it has failed.
    ghost faults: { Self → ℕ };

    /// How often it has failed, and what it stands on hadn't: what it kept was found changed.
    ghost changes: { Self → ℕ };

    /// How many records it has, told or not.
    ghost counted: { Self → ℕ };

    /// Its records can be read.
    ghost readable: { Self → Type 0 };

    /// Its records are kept, and the next one can be added.
    ghost rests: { Self → Type 0 };

    /// These bytes couldn't be added, and `reopen` finds out whether they were.
    ghost doubts: { Self → List ℕ → Type 0 };

    /// For how many records, of together how many bytes, room was made.
    ghost spare_records: { Self → ℕ };

    ghost spare_bytes: { Self → ℕ };

    /// It has no room for so many records, of together so many bytes.
    ghost is_full: { Self → ℕ → ℕ → Type 0 };

    /// Behind these records there is no room for so many more, of together so many bytes.
    ghost fills: { List (List ℕ) → ℕ → ℕ → Type 0 };

    /// How many records it has.
    fn count(&self) -> u64
        ensures { result ≡ counted self.now };

    /// Makes room for so many records, of together so many bytes, before the first of them is
    /// added. Calls no disk, and changes nothing that the keeper stands for. `Full` exactly where
    /// it has no room for so much; `Memory` for want of memory.
    fn ready(&mut self, count: u32, bytes: u64) -> Result<(), ReadyFault>
        requires rests { rests self.old }
        ensures records { OnOk result (spare_records self.new ≡ count) }
        ensures bytes { OnOk result (spare_bytes self.new ≡ bytes) }
        ensures full { IsErrOf result ReadyFault.Full ↔ is_full self.old count bytes }
        ensures rests { rests self.new }
        ensures same { records self.new ≡ records self.old }
        ensures holds { (image : Image) → holds self.new image ↔ holds self.old image }
        ensures moment { moment self.new ≡ moment self.old }
        ensures since { (t : ℕ) (image : Image)
            → held_since self.new t image ↔ held_since self.old t image }
        ensures faults { faults self.new ≡ faults self.old }
        ensures changes { changes self.new ≡ changes self.old }
        ensures counted { counted self.new ≡ counted self.old };

    /// Adds a record, for which room was made, and uses that room up. After Ok each image holds it
    /// at each later moment. After a fault the keeper is in doubt, and its records are as before.
    fn append(&mut self, bytes: &[u8]) -> Result<(), KeeperFault>
        requires rests { rests self.old }
        requires one { 1 ≤ spare_records self.old }
        requires bytes { length bytes.now ≤ spare_bytes self.old }
        ensures added { OnOk result (records self.new
            ≡ option_map (λ r. r ++ bytes.now ∷ []) (records self.old)) }
        ensures rests { OnOk result (rests self.new) }
        ensures counted { OnOk result (counted self.new ≡ counted self.old + 1) }
        ensures records { spare_records self.new + 1 ≡ spare_records self.old }
        ensures bytes { spare_bytes self.new + length bytes.now ≡ spare_bytes self.old }
        ensures doubts { OnErr result (doubts self.new bytes.now) }
        ensures kept { OnErr result (records self.new ≡ records self.old) }
        ensures kept_count { OnErr result (counted self.new ≡ counted self.old) }
        ensures cause { HasCause (faults self.old) (faults self.new) result }
        ensures changes { changes self.new ≡ changes self.old }
        // At each moment each image holds the records before, with the new one or without it.
        ensures any_moment { WhereTold (records self.old)
            (λ r. LeavesOnly moment held_since self.old self.new (OneMoreOrNot r bytes.now)) };

    /// Finds out, after a fault of `append`, whether its record was added: true exactly where it
    /// was, and it counts from then on. After a fault nothing has changed, and it is called again.
    /// Takes no memory. Room has to be made again.
    fn reopen(&mut self, tried: &[u8]) -> Result<bool, KeeperFault>
        requires doubts { doubts self.old tried.now }
        ensures found { IfOk result (λ found. records self.new
            ≡ option_map (λ r. WithIf found r tried.now) (records self.old)) }
        ensures rests { OnOk result (rests self.new) }
        ensures counted { IfOk result (λ found. counted self.new
            ≡ (if found then counted self.old + 1 else counted self.old)) }
        ensures doubts { OnErr result (doubts self.new tried.now) }
        ensures kept { OnErr result (records self.new ≡ records self.old) }
        ensures kept_count { OnErr result (counted self.new ≡ counted self.old) }
        ensures cause { HasCause (faults self.old) (faults self.new) result }
        ensures changes { OnOk result (changes self.new ≡ changes self.old) }
        ensures changed { OnErr result (MayChange (changes self.old) (changes self.new)) }
        // At each moment each image holds the records before, with the tried one or without it.
        ensures any_moment { WhereTold (records self.old)
            (λ r. LeavesOnly moment held_since self.old self.new (OneMoreOrNot r tried.now)) };

    /// Puts the bytes of the k-th record, from 0 on, in place of what `out` holds. It writes
    /// nothing. A record that a disk which isn't honest no longer shows is given as no bytes. After
    /// an error what `out` holds isn't told.
    fn read(&mut self, k: u64, out: &mut Vec<u8>) -> Result<(), KeepReadFault>
        requires readable { readable self.old }
        requires below { k < counted self.old }
        ensures gives { OnOk result (WhereTold (records self.old)
            (λ r. slice_get r k ≡ Some out.new.items)) }
        ensures readable { readable self.new }
        ensures rests { rests self.old → rests self.new }
        ensures doubts { (tried : List ℕ) → doubts self.old tried → doubts self.new tried }
        ensures quiet { Quiet records holds moment held_since self.old self.new }
        ensures counted { counted self.new ≡ counted self.old }
        ensures records { spare_records self.new ≡ spare_records self.old }
        ensures bytes { spare_bytes self.new ≡ spare_bytes self.old }
        ensures cause { IsErrOf result KeepReadFault.KeeperFault
            → Rose (faults self.old) (faults self.new) }
        ensures later { faults self.old ≤ faults self.new }
        ensures changes { changes self.new ≡ changes self.old };

    /// What its images hold now they hold since an earlier moment.
    ghost now_is_since: { (keeper : Self) (t : ℕ) (image : Image) → t ≤ moment keeper
        → holds keeper image → held_since keeper t image };

    /// Since this moment they hold nothing else.
    ghost since_is_now: { (keeper : Self) (image : Image)
        → held_since keeper (moment keeper) image → holds keeper image };

    ghost rest_is_readable: { (keeper : Self) → rests keeper → readable keeper };

    ghost doubt_is_readable: { (keeper : Self) (tried : List ℕ) → doubts keeper tried
        → readable keeper };

    /// They are among its faults.
    ghost changes_are_faults: { (keeper : Self) → changes keeper ≤ faults keeper };

    /// Where it tells its records it hasn't found them changed.
    ghost told_unchanged: { (keeper : Self) → readable keeper
        → WhereTold (records keeper) (λ r. changes keeper ≡ 0) };

    /// Its count is that of its records.
    ghost counts: { (keeper : Self) → readable keeper
        → WhereTold (records keeper) (λ r. counted keeper ≡ length r) };

    /// Whether it is full follows from its records.
    ghost full_of: { (keeper : Self) (n bytes : ℕ) → readable keeper
        → WhereTold (records keeper) (λ r. is_full keeper n bytes ↔ fills r n bytes) };

    /// While it rests its images hold its records and nothing else.
    ghost rest_holds: { (keeper : Self) → rests keeper
        → WhereTold (records keeper) (HoldsOnly (holds keeper)) };

    /// In doubt each image holds its records, with the tried one or without it.
    ghost doubt_holds: { (keeper : Self) (tried : List ℕ) → doubts keeper tried
        → WhereTold (records keeper)
        (λ r. (image : Image) → holds keeper image → OneMoreOrNot r tried image) };
}
