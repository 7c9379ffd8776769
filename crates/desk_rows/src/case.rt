use std::num::NonZeroUsize;

/// How the reads of a source go: each gives at most `most` bytes, `passes` of them succeed, the
/// next `fails` fail, and those behind them succeed.
#[derive(Clone, Copy)]
pub(crate) struct Reads {
    pub(crate) most: NonZeroUsize,
    pub(crate) passes: u64,
    pub(crate) fails: u64,
}

/// How the calls of the disk go: `passes` of them succeed, the next `fails` fail, and those behind
/// them succeed. None succeeds behind the first `stops` calls.
#[derive(Clone, Copy)]
pub(crate) struct DiskCalls {
    pub(crate) passes: u64,
    pub(crate) fails: u64,
    pub(crate) stops: u64,
}

/// What a run is given.
#[derive(Drop)]
pub(crate) struct Given {
    pub(crate) words: Vec<String>,
    pub(crate) tables: Vec<u8>,
    pub(crate) tables_reads: Reads,
    pub(crate) input: Vec<u8>,
    pub(crate) input_reads: Reads,
    /// The byte that comes behind the input without end, if any.
    pub(crate) endless: Option<u8>,
    /// What the clock tells; 0 where there is none.
    pub(crate) moments: Vec<u64>,
    /// How many bytes the output takes.
    pub(crate) room: usize,
    /// What the disk holds, or None for what the run before left on it.
    pub(crate) disk: Option<Vec<u8>>,
    pub(crate) disk_calls: DiskCalls,
}

/// How a run ended: its status, all that it printed, what the disk holds then, and the journal in
/// that up to its end.
#[derive(Drop)]
pub(crate) struct Outcome {
    pub(crate) status: u8,
    pub(crate) output: Vec<u8>,
    pub(crate) disk: Vec<u8>,
    pub(crate) journal: Vec<u8>,
}

/// What is wanted of a run. The disk and its journal may be anything where nothing is said of them.
#[derive(Drop)]
pub(crate) struct Wanted {
    pub(crate) status: u8,
    pub(crate) output: Vec<u8>,
    pub(crate) disk: Option<Vec<u8>>,
    pub(crate) journal: Option<Vec<u8>>,
}

/// A run, and what is wanted of it.
#[derive(Drop)]
pub(crate) struct Life {
    pub(crate) given: Given,
    pub(crate) wanted: Wanted,
}

/// How a run ended, and what was wanted of it.
#[derive(Drop)]
pub(crate) struct Ended {
    pub(crate) got: Outcome,
    pub(crate) wanted: Wanted,
}

/// Runs, one after another on one disk.
#[derive(Drop)]
pub(crate) struct Case {
    pub(crate) name: String,
    pub(crate) lives: Vec<Life>,
}
