//! A folder of cases.

use crate::part::Part;
use og_program::Files;
use std::alloc::Global;
use std::fmt::Display;
use std::fs::{DirEntry, File};
use std::io::ErrorKind;
use std::{fs, io};

/// A folder of cases. Files are named from there.
#[derive(Clone, Copy)]
pub(crate) struct Folder<'a> {
    rt: &'a HostRuntime,
    path: &'a str,
}

impl<'a> Folder<'a> {
    /// The folder with this path.
    pub(crate) fn new(rt: &'a HostRuntime, path: &'a str) -> Folder<'a> {
        Folder { rt, path }
    }

    /// The folder's path.
    pub(crate) fn path(&self) -> &'a str {
        self.path
    }

    /// The allocator of the texts read.
    pub(crate) fn alloc(&self) -> Global {
        self.rt.alloc()
    }

    /// Prints a line on standard output.
    ///
    /// # Errors
    ///
    /// It could not be written.
    pub(crate) fn print(&self, line: impl Display + Drop) -> io::Result<()> {
        self.rt.println(line)
    }

    // Adds the name of a case, if this file has the words of one.
    fn add_case(&self, names: &mut Vec<String>, entry: &DirEntry) -> io::Result<()> {
        if let Some(name) = entry.file_name().strip_suffix(Part::Args.ending()) {
            names.push(String::from_str(self.alloc(), name)?)?;
        }
        Ok(())
    }

    /// The names of the cases, in order.
    ///
    /// # Errors
    ///
    /// The folder could not be listed, or memory ran out.
    pub(crate) fn cases(&self) -> io::Result<Vec<String>> {
        let mut names = Vec::new(self.alloc());
        for entry in fs::read_dir(self.rt, self.path)? {
            self.add_case(&mut names, &entry?)?;
        }
        names.sort()?;
        Ok(names)
    }

    /// The bytes of a file of a case; none where there is no such file.
    ///
    /// # Errors
    ///
    /// It could not be read, or memory ran out.
    pub(crate) fn read(&self, case: &str, part: Part) -> io::Result<Option<Vec<u8>>> {
        let (folder, ending) = (self.path, part.ending());
        let path = format!(in self.alloc(); "{folder}/{case}{ending}")?;
        match fs::read(self.rt, path.as_str()) {
            Ok(bytes) => Ok(Some(bytes)),
            Err(error) if error.kind() == ErrorKind::NotFound => Ok(None),
            Err(error) => Err(error),
        }
    }
}

/// The files that words name, of which nothing is known.
impl<'a> Files for Folder<'a> {
    ghost use Rattle.std.specs.Prelude.{None};

    ghost contents = { λ _ _. None };

    type File = File;

    fn open(&self, name: &str) -> io::Result<File> {
        let folder = self.path;
        let path = format!(in self.alloc(); "{folder}/{name}")?;
        self.rt.open(path.as_str())
    }
}
