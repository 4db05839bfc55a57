//! Files by their names.

ghost use Rattle.std.specs.Prelude.{◌≡◌, ℕ, Bool, true, false, List, Option, IfOk, IsErr};

use std::fs::File;
use std::io;
use std::io::{Error, ErrorKind, Read};

/// Files by their names.
pub trait Files {
    /// The bytes of the file of a name, where they are known.
    ghost contents: { Self → List ℕ → Option (List ℕ) };

    /// Whether there is known to be no file of a name.
    ghost is_missing: { Self → List ℕ → Bool } = { λ _ _. false };

    /// An open file, which is read from its beginning.
    type File: Read + Drop;

    /// Opens the file of a name.
    ///
    /// # Errors
    ///
    /// There is no such file, it cannot be opened, or it is a directory.
    fn open(&self, name: &str) -> io::Result<Self::File>
        ensures bytes { IfOk result
            (λ file. Self.File.remaining file ≡ contents self.now name.now) }
        ensures missing { is_missing self.now name.now ≡ true → IsErr result };
}

/// The files of the system, of which nothing is known.
impl Files for HostRuntime {
    ghost use Rattle.std.specs.Prelude.{None};

    ghost contents = { λ _ _. None };

    type File = File;

    fn open(&self, name: &str) -> io::Result<File> {
        let file = File::open(self, name)?;
        if file.metadata()?.is_dir() {
            return Err(Error::from(ErrorKind::IsADirectory));
        }
        Ok(file)
    }
}
