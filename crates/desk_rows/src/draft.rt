use crate::case::{Case, DiskCalls, Given, Life, Reads, Wanted};
use crate::folder::Folder;
use crate::refusal::Why;
use crate::texts::{Texts, add, add_in_form, byte, bytes_of, moments, number, words};
use desk_top::SAMPLE_TABLES;
use std::alloc::{AllocError, Global};
use std::mem;
use std::num::NonZeroUsize;

/// The words of a run where a case doesn't say them.
const USUAL_WORDS: &str = "answer --tables T --journal J";

/// How many bytes the output takes where a case doesn't say it.
const USUAL_ROOM: usize = 65_536;

const USUAL_READS: Reads = Reads {
    most: NonZeroUsize::MAX,
    passes: 0,
    fails: 0,
};

const USUAL_CALLS: DiskCalls = DiskCalls {
    passes: 0,
    fails: 0,
    stops: u64::MAX,
};

/// A case whose lines are being read.
#[derive(Drop)]
pub(crate) struct Draft {
    // The runs before the one at hand.
    case: Case,
    given: Given,
    wanted: Wanted,
    // How often the next text is added.
    times: usize,
    // What the next line puts another text in the place of.
    replaced: Option<String>,
}

// A run of which nothing was said but its tables and what its disk holds.
fn usual(alloc: Global, tables: Vec<u8>, disk: Option<Vec<u8>>) -> Result<Given, AllocError> {
    Ok(Given {
        words: words(alloc, USUAL_WORDS)?,
        tables,
        tables_reads: USUAL_READS,
        input: Vec::new(alloc),
        input_reads: USUAL_READS,
        endless: None,
        moments: Vec::new(alloc),
        room: USUAL_ROOM,
        disk,
        disk_calls: USUAL_CALLS,
    })
}

// What is wanted of a run of which nothing was said.
fn usual_end(alloc: Global) -> Wanted {
    Wanted {
        status: 0,
        output: Vec::new(alloc),
        disk: None,
        journal: None,
    }
}

impl Draft {
    /// A case of which nothing but the name was said.
    pub(crate) fn new(alloc: Global, name: &str) -> Result<Draft, AllocError> {
        let sample = SAMPLE_TABLES.as_bytes().to_vec(alloc)?;
        Ok(Draft {
            case: Case {
                name: String::from_str(alloc, name)?,
                lives: Vec::new(alloc),
            },
            given: usual(alloc, sample, Some(Vec::new(alloc)))?,
            wanted: usual_end(alloc),
            times: 1,
            replaced: None,
        })
    }

    /// The case, as it stands.
    pub(crate) fn into_case(self) -> Result<Case, AllocError> {
        let Draft {
            mut case,
            given,
            wanted,
            ..
        } = self;
        case.lives.push(Life { given, wanted })?;
        Ok(case)
    }

    /// Takes a line: its first word, and what stands behind it.
    pub(crate) fn add(
        &mut self,
        folder: Folder<'_>,
        texts: &Texts,
        word: &str,
        said: &str,
    ) -> Result<(), Why> {
        let alloc = folder.alloc();
        match word {
            "again" => self.begin_next(alloc)?,
            "words" => self.given.words = words(alloc, said)?,
            "tables" => self.given.tables = tables_named(folder, said)?,
            "replace" => self.replaced = Some(said.replace(alloc, "\\n", "\n")?),
            "by" => self.put_in_place(alloc, said)?,
            "endless" => self.given.endless = Some(byte(said)?),
            "clock" => self.given.moments = moments(alloc, said)?,
            "pieces" => self.set_pieces(said)?,
            "fails" => self.set_fails(said)?,
            "stops" => self.given.disk_calls.stops = number(said)?,
            "room" => self.given.room = number(said)?,
            "journal" => self.given.disk = Some(folder.read(said).or(Err(Why::NoFile))?),
            "kept" => self.keep_disk(alloc)?,
            "status" => self.wanted.status = number::<u8>(said)?,
            "times" => self.times = number(said)?,
            _ => self.add_text(alloc, texts, word, said)?,
        }
        Ok(())
    }

    // The disk is wanted as it is before the run.
    fn keep_disk(&mut self, alloc: Global) -> Result<(), Why> {
        let Some(disk) = &self.given.disk else {
            return Err(Why::NoDisk);
        };
        self.wanted.disk = Some(disk.to_vec(alloc)?);
        Ok(())
    }

    // Ends the run at hand, and begins the next one with its tables, on what it leaves on the disk.
    fn begin_next(&mut self, alloc: Global) -> Result<(), AllocError> {
        let next = usual(alloc, self.given.tables.to_vec(alloc)?, None)?;
        let given = mem::replace(&mut self.given, next);
        let wanted = mem::replace(&mut self.wanted, usual_end(alloc));
        self.case.lives.push(Life { given, wanted })?;
        Ok(())
    }

    // Puts this in the place of what `replace` said, where that stands first in the tables text.
    fn put_in_place(&mut self, alloc: Global, said: &str) -> Result<(), Why> {
        let Some(old) = self.replaced.take() else {
            return Err(Why::NoReplace);
        };
        let new = said.replace(alloc, "\\n", "\n")?;
        let tables = &mut self.given.tables;
        let Ok(text) = std::str::from_utf8(tables.as_slice()) else {
            return Err(Why::NotInTables);
        };
        let Some((front, back)) = text.split_once(old.as_str()) else {
            return Err(Why::NotInTables);
        };
        *tables = format!(in alloc; "{front}{new}{back}")?.into_bytes();
        Ok(())
    }

    // How many bytes the reads of a source give at most.
    fn set_pieces(&mut self, said: &str) -> Result<(), Why> {
        let (source, most) = said.split_once(' ').unwrap_or((said, ""));
        self.reads_of(source)?.most = number(most)?;
        Ok(())
    }

    // How many calls of a source or of the disk pass, and how many fail behind them.
    fn set_fails(&mut self, said: &str) -> Result<(), Why> {
        let (object, plan) = said.split_once(' ').unwrap_or((said, ""));
        let (passes, fails) = plan.split_once(' ').unwrap_or((plan, ""));
        let (passes, fails) = (number(passes)?, number(fails)?);
        if object == "disk" {
            self.given.disk_calls.passes = passes;
            self.given.disk_calls.fails = fails;
            return Ok(());
        }
        let reads = self.reads_of(object)?;
        reads.passes = passes;
        reads.fails = fails;
        Ok(())
    }

    fn reads_of(&mut self, source: &str) -> Result<&mut Reads, Why> {
        match source {
            "tables" => Ok(&mut self.given.tables_reads),
            "input" => Ok(&mut self.given.input_reads),
            "link" => Err(Why::NotServed),
            _ => Err(Why::UnknownWord),
        }
    }

    // Adds to the text of this sign, as often as it was said.
    fn add_text(
        &mut self,
        alloc: Global,
        texts: &Texts,
        sign: &str,
        said: &str,
    ) -> Result<(), Why> {
        let times = mem::replace(&mut self.times, 1);
        if let Some(form) = sign.strip_prefix('|') {
            return add(
                &mut self.given.tables,
                times,
                &bytes_of(alloc, texts, form, said)?,
            );
        }
        if let Some(form) = sign.strip_prefix('>') {
            return add(
                &mut self.given.input,
                times,
                &bytes_of(alloc, texts, form, said)?,
            );
        }
        if let Some(form) = sign.strip_prefix('<') {
            return add(
                &mut self.wanted.output,
                times,
                &bytes_of(alloc, texts, form, said)?,
            );
        }
        match sign {
            "@" | "@x" | "@!" => Err(Why::NotServed),
            _ => self.add_to_disk(alloc, texts, times, sign, said),
        }
    }

    // Adds to what the disk holds before the run, to the journal that is wanted behind it, or to
    // the bytes that are.
    fn add_to_disk(
        &mut self,
        alloc: Global,
        texts: &Texts,
        times: usize,
        sign: &str,
        said: &str,
    ) -> Result<(), Why> {
        let tables = &self.given.tables;
        if let Some(form) = sign.strip_prefix('+') {
            let held = self.given.disk.get_or_insert(Vec::new(alloc));
            return add_in_form(alloc, texts, tables, form, times, said, held);
        }
        let Some(form) = sign.strip_prefix('=') else {
            return Err(Why::UnknownWord);
        };
        if form == "e" || form == "t" {
            let journal = self.wanted.journal.get_or_insert(Vec::new(alloc));
            return add_in_form(alloc, texts, tables, form, times, said, journal);
        }
        let disk = self.wanted.disk.get_or_insert(Vec::new(alloc));
        add_in_form(alloc, texts, tables, form, times, said, disk)
    }
}

// The tables text of this name: the sample, a file's, or an empty one.
fn tables_named(folder: Folder<'_>, name: &str) -> Result<Vec<u8>, Why> {
    match name {
        "sample" => Ok(SAMPLE_TABLES.as_bytes().to_vec(folder.alloc())?),
        "" => Ok(Vec::new(folder.alloc())),
        name => folder.read(name).or(Err(Why::NoFile)),
    }
}
