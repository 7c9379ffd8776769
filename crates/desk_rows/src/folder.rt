use std::alloc::Global;
use std::{env, fs, io};

/// The folder in which a case file lies.
#[derive(Clone, Copy)]
pub(crate) struct Folder<'a> {
    rt: &'a HostRuntime,
    // With its slash, and empty where the program runs.
    path: &'a str,
}

impl<'a> Folder<'a> {
    /// The folder of the file of this name.
    pub(crate) fn of(rt: &'a HostRuntime, file: &'a str) -> Folder<'a> {
        let path = match file.rfind('/') {
            Some(at) => file.get(..=at).unwrap_or(""),
            None => "",
        };
        Folder { rt, path }
    }

    pub(crate) fn alloc(&self) -> Global {
        self.rt.alloc()
    }

    /// The bytes of the file of this name in it.
    pub(crate) fn read(&self, name: &str) -> io::Result<Vec<u8>> {
        let folder = self.path;
        let path = format!(in self.rt.alloc(); "{folder}{name}")?;
        fs::read(self.rt, path.as_str())
    }
}

// What the arguments name, or all that lies where the program runs.
fn names(rt: &HostRuntime) -> io::Result<Vec<String>> {
    let mut names = Vec::new(rt.alloc());
    for name in env::args(rt)?.skip(1) {
        names.push(name)?;
    }
    if names.is_empty() {
        for entry in fs::read_dir(rt, ".")? {
            names.push(String::from_str(rt.alloc(), entry?.file_name())?)?;
        }
    }
    Ok(names)
}

/// The names of the case files, sorted.
pub(crate) fn case_files(rt: &HostRuntime) -> io::Result<Vec<String>> {
    let mut files = names(rt)?;
    files.retain(|name| name.ends_with(".case"));
    files.sort()?;
    Ok(files)
}
