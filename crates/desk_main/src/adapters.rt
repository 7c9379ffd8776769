ghost use Rattle.std.specs.Prelude.{◌≡◌, ◌≤◌, None, IsErr};
ghost use Rattle.std.specs.Io.{ReadsAtMost};
ghost use Rattle.std.specs.Io.KnownBytes.{ReadConsumes};
ghost use Rattle.wire_ids.specs.Causes.{HasCause, Rose};

use disk_model::{Clock, Failed, Sink, Source};
use std::io::{Read, Write};
use std::time;

// Counts a fault. The count stands still at its type's end.
fn failed(faults: &mut u64) -> Failed
    ensures later { faults.old ≤ faults.new }
    ensures rose { Rose faults.old faults.new }
{
    *faults = faults.saturating_add(1);
    Failed
}

/// Any reader of std. What it has left is told where the reader tells.
#[derive(Drop)]
pub struct ReadSource<R: Read> {
    inner: R,
    faults: u64,
}

impl<R: Read> ReadSource<R> {
    /// The source of a reader's bytes.
    pub fn new(inner: R) -> Self {
        ReadSource { inner, faults: 0 }
    }
}

impl<R: Read> Source for ReadSource<R> {
    ghost left = { λ s. R.remaining s.inner };

    ghost faults = { λ s. s.faults };

    fn read(&mut self, room: &mut [u8]) -> Result<usize, Failed> {
        match self.inner.read(room) {
            Ok(count) => Ok(count),
            Err(_) => Err(failed(&mut self.faults)),
        }
    }
}

/// Any writer of std. What was written is told where the writer tells.
#[derive(Drop)]
pub struct WriteSink<W: Write> {
    inner: W,
    faults: u64,
}

impl<W: Write> WriteSink<W> {
    /// The sink of a writer's bytes.
    pub fn new(inner: W) -> Self {
        WriteSink { inner, faults: 0 }
    }
}

impl<W: Write> Sink for WriteSink<W> {
    ghost written = { λ s. W.contents s.inner };

    ghost faults = { λ s. s.faults };

    fn write(&mut self, piece: &[u8]) -> Result<usize, Failed> {
        match self.inner.write(piece) {
            Ok(0) if !piece.is_empty() => Err(failed(&mut self.faults)),
            Ok(count) => Ok(count),
            Err(_) => Err(failed(&mut self.faults)),
        }
    }
}

/// A file that is read, which tells what std's file tells. Where it couldn't be opened, each call
/// fails and is counted.
#[derive(Drop)]
pub struct FileSource<F: Read> {
    file: Option<F>,
    faults: u64,
}

impl<F: Read + Drop> FileSource<F> {
    /// The source of an opened file's bytes, or of a file that couldn't be opened.
    pub fn new(file: Option<F>) -> Self
        ensures file { result.file ≡ file }
    {
        FileSource { file, faults: 0 }
    }
}

impl<F: Read> Source for FileSource<F> {
    ghost use Rattle.desk_main.specs.Files.{file_left};

    ghost left = { λ s. file_left F.remaining s.file };

    ghost faults = { λ s. s.faults };

    fn read(&mut self, room: &mut [u8]) -> Result<usize, Failed>
        ensures bound { ReadsAtMost result room.new }
        ensures bytes { ReadConsumes (file_left F.remaining self.old.file)
            (file_left F.remaining self.new.file) result room.new }
        ensures cause { HasCause self.old.faults self.new.faults result }
        ensures closed { self.old.file ≡ None → IsErr result }
        ensures stays { self.old.file ≡ None → self.new.file ≡ None }
    {
        match &mut self.file {
            Some(file) => match file.read(room) {
                Ok(count) => Ok(count),
                Err(_) => Err(failed(&mut self.faults)),
            },
            None => Err(failed(&mut self.faults)),
        }
    }
}

/// The system's clock. Where it can't be read it tells what it told last, and 0 at first.
#[derive(Drop)]
pub struct WallClock<'a, R: time::Clock> {
    rt: &'a R,
    last: u64,
}

impl<'a, R: time::Clock> WallClock<'a, R> {
    /// The clock of this runtime.
    pub fn new(rt: &'a R) -> Self {
        WallClock { rt, last: 0 }
    }
}

impl<'a, R: time::Clock> Clock for WallClock<'a, R> {
    ghost tells = { λ _. None };

    fn now(&mut self) -> u64 {
        if let Ok(since) = self.rt.since_1970() {
            self.last = since.as_secs();
        }
        self.last
    }
}
