ghost use Rattle.std.specs.Prelude.{ℕ, List, IfOk, string_bytes};
ghost use Rattle.std.specs.Io.KnownBytes.{Appends};
ghost use Rattle.desk_rows.specs.Verdicts.{PrintsAll, Says};

use crate::case::{Case, Ended, Life};
use crate::folder::{Folder, case_files};
use crate::form::read_cases;
use crate::refusal::Refused;
use crate::running::outcome_of;
use crate::verdict::{pass_all, verdict};
use std::alloc::Global;
use std::io::Write;
use std::{fs, io};

// The lives of a case, each on what the one before left on the disk, and how they ended.
fn live(alloc: Global, lives: Vec<Life>) -> io::Result<Vec<Ended>> {
    let mut ended = Vec::new(alloc);
    let mut left = Vec::new(alloc);
    for life in lives {
        let Life { given, wanted } = life;
        let Ok(got) = outcome_of(alloc, given, &left) else {
            return Err(io::Error::from(io::ErrorKind::OutOfMemory));
        };
        left = got.disk.to_vec(alloc)?;
        ended.push(Ended { got, wanted })?;
    }
    Ok(ended)
}

// Runs a case and prints what came of it. Whether it went as it is wanted.
fn run_case<W: Write>(alloc: Global, case: Case, out: &mut W) -> io::Result<bool>
    ensures { IfOk result (λ passed. (lines : List ℕ) × Says passed (string_bytes case.name) lines
        × Appends (W.contents out.old) (W.contents out.new) lines) }
{
    let Case { name, lives } = case;
    let lived = live(alloc, lives)?;
    let ended = lived.as_slice();
    out.write_all(&verdict(alloc, &name, ended)?)?;
    Ok(pass_all(ended))
}

// Runs cases, one after another. Whether all went as they are wanted.
fn run_cases<W: Write>(alloc: Global, cases: Vec<Case>, out: &mut W) -> io::Result<bool>
    ensures { IfOk result (λ all. PrintsAll all cases.items (W.contents out.old)
        (W.contents out.new)) }
{
    let mut all = true;
    for case in cases {
        all &= run_case(alloc, case, out)?;
    }
    Ok(all)
}

// Runs the cases of a file, or says why there are none. Whether all went as they are wanted.
fn run_file<W: Write>(rt: &HostRuntime, name: &str, out: &mut W) -> io::Result<bool> {
    let text = fs::read_to_string(rt, name)?;
    match read_cases(Folder::of(rt, name), text.as_str()) {
        Ok(cases) => run_cases(rt.alloc(), cases, out),
        Err(Refused { line, why }) => {
            writeln!(out, "{name}:{line}: {why}")?;
            Ok(false)
        }
    }
}

/// Runs the cases of all files. Whether all went as they are wanted.
pub(crate) fn run_files(rt: &HostRuntime) -> io::Result<bool> {
    let mut out = io::writer(rt);
    let mut all = true;
    for name in case_files(rt)? {
        all &= run_file(rt, name.as_str(), &mut out)?;
    }
    Ok(all)
}
