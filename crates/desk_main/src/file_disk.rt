ghost use Rattle.std.specs.Prelude.{◌≡◌, ◌≤◌, length, None, Some, ⊤};
ghost use Rattle.std.specs.Prelude.{IfOk, IsErr, MatchOption, OnOk};
ghost use Rattle.wire_ids.specs.Causes.{HasCause};
ghost use Rattle.disk_model.specs.Disk.{Counts};

#[cfg(test)]
mod tests;

use disk_model::{Disk, Failed};
use std::fs::{self, File, OpenOptions};
use std::io::{self, ErrorKind};
use std::os::fd::AsRawFd;
use std::os::unix::fs::{FileExt, OpenOptionsExt};

// Its owner alone reads and writes it.
const OWNER_ALONE: u32 = 0o600;

/// A file as a disk, which tells nothing of its content. Where it couldn't be opened, each call
/// fails and is counted, and so does each call after a sync that failed: the system may then have
/// let go what it couldn't write, and answer Ok to the next sync all the same.
#[derive(Drop)]
pub struct FileDisk {
    file: Option<File>,
    calls: u64,
    faults: u64,
}

impl FileDisk {
    /// The disk of the file at a path, which is made where it is missing, with mode 0600. While the
    /// disk lives the file is locked, so that no other process has a disk over it. Each call of the
    /// disk fails where the file can't be opened or made, where it isn't a regular file, where it
    /// is locked already, and where the file or its folder can't be synced.
    pub fn open(rt: &HostRuntime, path: &str) -> FileDisk
        ensures { result.faults ≡ 0 }
    {
        FileDisk::new(opened(rt, path).ok())
    }

    /// The disk of an opened file, or of a file that couldn't be opened.
    pub fn new(file: Option<File>) -> FileDisk
        ensures file { result.file ≡ file }
        ensures faults { result.faults ≡ 0 }
    {
        FileDisk {
            file,
            calls: 0,
            faults: 0,
        }
    }

    /// How often it has failed.
    pub fn faults(&self) -> u64
        ensures { result ≡ self.now.faults }
    {
        self.faults
    }

    // Ends a call: None is a fault, and so is a call behind 2^64 - 1 others.
    fn ends<T: Drop>(&mut self, done: Option<T>) -> Result<T, Failed>
        ensures value { IfOk result (λ v. done ≡ Some v) }
        ensures counts { Counts self.old.calls self.new.calls result }
        ensures cause { HasCause self.old.faults self.new.faults result }
        ensures stays { self.new.file ≡ self.old.file }
    {
        if let (Some(value), Some(calls)) = (done, self.calls.checked_add(1)) {
            self.calls = calls;
            return Ok(value);
        }
        self.faults = self.faults.saturating_add(1);
        Err(Failed)
    }
}

impl Disk for FileDisk {
    ghost seen = { λ d. None };

    ghost images = { λ d c. ⊥ };

    ghost moment = { λ d. d.calls };

    ghost images_since = { λ d t c. ⊥ };

    ghost faults = { λ d. d.faults };

    ghost seen_is_image = { λ d c told. absurd (cc told) };

    ghost now_is_since = { λ d t c le now. now };

    ghost since_is_now = { λ d c since. since };

    fn len(&mut self) -> Result<u64, Failed>
        ensures counts { Counts self.old.calls self.new.calls result }
        ensures cause { HasCause self.old.faults self.new.faults result }
        ensures closed { self.old.file ≡ None → IsErr result }
        ensures stays { self.new.file ≡ self.old.file }
    {
        let found = match &self.file {
            Some(file) => file.metadata().ok(),
            None => None,
        };
        let len = match found {
            Some(data) => Some(data.len()),
            None => None,
        };
        self.ends(len)
    }

    fn read(&mut self, at: u64, room: &mut [u8]) -> Result<usize, Failed>
        ensures bound { IfOk result (λ n. n ≤ length room.new) }
        ensures counts { Counts self.old.calls self.new.calls result }
        ensures cause { HasCause self.old.faults self.new.faults result }
        ensures closed { self.old.file ≡ None → IsErr result }
        ensures stays { self.new.file ≡ self.old.file }
    {
        let read = match &self.file {
            Some(file) => read_full(file, at, room),
            None => None,
        };
        self.ends(read)
    }

    fn write_at(&mut self, at: u64, bytes: &[u8]) -> Result<(), Failed>
        ensures counts { Counts self.old.calls self.new.calls result }
        ensures cause { HasCause self.old.faults self.new.faults result }
        ensures closed { self.old.file ≡ None → IsErr result }
        ensures stays { self.new.file ≡ self.old.file }
    {
        let written = match &self.file {
            Some(file) => file.write_all_at(bytes, at).ok(),
            None => None,
        };
        self.ends(written)
    }

    // The length is among what `sync_data` makes last, and the times of the file need not be.
    fn sync(&mut self) -> Result<(), Failed>
        ensures counts { Counts self.old.calls self.new.calls result }
        ensures cause { HasCause self.old.faults self.new.faults result }
        ensures closed { self.old.file ≡ None → IsErr result }
        ensures stays { OnOk result (self.new.file ≡ self.old.file) }
        ensures stops { IsErr result → self.new.file ≡ None }
    {
        let synced = match &self.file {
            Some(file) => file.sync_data().ok(),
            None => None,
        };
        let ended = self.ends(synced);
        if ended.is_err() {
            self.file = None;
        }
        ended
    }
}

// Reads until the room is full or the file ends, and says how many bytes. A call that a signal
// interrupts is made again.
fn read_full(file: &File, at: u64, room: &mut [u8]) -> Option<usize>
    ensures { MatchOption result ⊤ (λ n. n ≤ length room.new) }
{
    let mut done = 0;
    for _ in 0..u64::MAX {
        if done == room.len() {
            return Some(done);
        }
        let place = at.checked_add(done as u64)?;
        match file.read_at(&mut room[done..], place) {
            Ok(0) => return Some(done),
            Ok(count) => done += count,
            Err(error) if error.kind() == ErrorKind::Interrupted => {}
            Err(_) => return None,
        }
    }
    None
}

// Opens or makes the file, locks it and makes its name last.
fn opened(rt: &HostRuntime, path: &str) -> io::Result<File> {
    let mut file = OpenOptions::new()
        .read(true)
        .write(true)
        .create(true)
        .mode(OWNER_ALONE)
        .open(rt, path)?;
    // What is meant for a standard stream that was closed must not land in the file.
    if file.as_raw_fd() <= 2 {
        file = file.try_clone()?;
    }
    if !file.metadata()?.is_file() {
        return Err(io::Error::from(ErrorKind::Unsupported));
    }
    file.try_lock()?;
    settle(&file)?;
    let mut folder = fs::canonicalize(rt, path)?;
    folder.pop();
    File::open(rt, folder.as_str())?.sync_all()?;
    Ok(file)
}

// Makes what a read gives last. The system's copies are let go, since after a failed sync of an
// earlier process they may hold what the device lacks.
fn settle(file: &File) -> io::Result<()> {
    file.sync_all()?;
    let code = libc::posix_fadvise(file.as_raw_fd(), 0, 0, libc::POSIX_FADV_DONTNEED);
    if code != 0 {
        return Err(io::Error::from_raw_os_error(code));
    }
    Ok(())
}
