//! Where the program's files and its standard input come from.

ghost use Rattle.std.specs.Prelude.{◌≡◌, ℕ, List, None, Option, Some, IfNone, IfSome};
ghost use Rattle.fast_io.specs.Counts.{counted, counted_by};

use fast_io::{ByteInput, Counted};
use std::fs::{self, File};
use std::io::{self, ErrorKind, Stdin};

/// What a look at a file finds that cannot be opened, or read to its end.
#[derive(Clone, Copy, Debug, PartialEq, Eq)]
pub enum FileState {
    /// No file has the name.
    Missing,
    /// It is a folder.
    Folder,
    /// It may not be read.
    Forbidden,
    /// Nothing that would tell why.
    Unknown,
}

/// Where the program's files and its standard input come from.
pub trait Source {
    /// A file that is open.
    type File: ByteInput + Drop;

    /// The standard input.
    type Standard: ByteInput + Drop;

    /// What the file of a name gives, where the source tells it.
    ghost file: { Self → List ℕ → Option (List ℕ) };

    /// What the standard input gives, where the source tells it.
    ghost input: { Self → Option (List ℕ) };

    /// How many calls to open the file of a name were refused. Those of other names may be counted with them. The
    /// count stops at 2^64 - 1.
    ghost unopened: { Self → List ℕ → ℕ };

    /// How many reads failed of the readers of a name, or with none of the standard input, that were given back. Those
    /// of other names may be counted with them. The count stops at 2^64 - 1.
    ghost failed: { Self → Option (List ℕ) → ℕ };

    /// Opens the file of this name at its beginning; none where it is not there or cannot be opened.
    fn open(&mut self, name: &str) -> Option<Self::File>
        ensures gives { IfSome result (λ f. Self.File.left f ≡ file self.old name.now) }
        ensures unfailed { IfSome result (λ f. Self.File.errors f ≡ 0) }
        ensures opened { IfSome result (λ f. unopened self.new ≡ unopened self.old) }
        ensures refused { IfNone result (unopened self.new name.now ≡ counted (unopened self.old name.now)) }
        ensures failed { failed self.new ≡ failed self.old }
        ensures files { file self.new ≡ file self.old }
        ensures input { input self.new ≡ input self.old };

    /// Closes the reader of the file of this name. What failed of its reads is counted.
    fn close(&mut self, name: &str, reader: Self::File)
        ensures counts { failed self.new (Some name.now)
            ≡ counted_by (failed self.old (Some name.now)) (Self.File.errors reader) }
        ensures unfailed { Self.File.errors reader ≡ 0 → failed self.new ≡ failed self.old }
        ensures opened { unopened self.new ≡ unopened self.old }
        ensures files { file self.new ≡ file self.old }
        ensures input { input self.new ≡ input self.old };

    /// The standard input.
    fn standard(&mut self) -> Self::Standard
        ensures gives { Self.Standard.left result ≡ input self.old }
        ensures unfailed { Self.Standard.errors result ≡ 0 }
        ensures opened { unopened self.new ≡ unopened self.old }
        ensures failed { failed self.new ≡ failed self.old }
        ensures files { file self.new ≡ file self.old };

    /// Lets the reader of the standard input go. What failed of its reads is counted.
    fn leave_standard(&mut self, reader: Self::Standard)
        ensures counts { failed self.new None ≡ counted_by (failed self.old None) (Self.Standard.errors reader) }
        ensures unfailed { Self.Standard.errors reader ≡ 0 → failed self.new ≡ failed self.old }
        ensures opened { unopened self.new ≡ unopened self.old }
        ensures files { file self.new ≡ file self.old };

    /// What a look at the file of this name finds, for people alone: no answer of the program stands on it.
    fn look(&self, name: &str) -> FileState;
}

/// The files and the standard input of the machine, which tells of neither what it gives.
#[derive(Drop)]
pub struct Host<'a> {
    rt: &'a HostRuntime,
    // of all names together
    unopened: u64,
    failed: u64,
}

impl<'a> Host<'a> {
    /// Those of this process. Takes no memory.
    pub fn new(rt: &'a HostRuntime) -> Host<'a> {
        Host {
            rt,
            unopened: 0,
            failed: 0,
        }
    }
}

/// What an error says of a file.
fn state_of(error: &io::Error) -> FileState {
    match error.kind() {
        ErrorKind::NotFound => FileState::Missing,
        ErrorKind::IsADirectory => FileState::Folder,
        ErrorKind::PermissionDenied => FileState::Forbidden,
        _ => FileState::Unknown,
    }
}

impl Source for Host<'_> {
    type File = Counted<File>;

    type Standard = Counted<Stdin>;

    ghost file = { λ s name. None };

    ghost input = { λ s. None };

    ghost unopened = { λ s name. s.unopened };

    ghost failed = { λ s name. s.failed };

    fn open(&mut self, name: &str) -> Option<Counted<File>> {
        match fs::open(self.rt, name) {
            Ok(file) => Some(Counted::new(file)),
            Err(_) => {
                self.unopened = self.unopened.saturating_add(1);
                None
            }
        }
    }

    fn close(&mut self, _name: &str, reader: Counted<File>) {
        self.failed = self.failed.saturating_add(reader.failed_calls());
    }

    fn standard(&mut self) -> Counted<Stdin> {
        Counted::new(self.rt.stdin())
    }

    fn leave_standard(&mut self, reader: Counted<Stdin>) {
        self.failed = self.failed.saturating_add(reader.failed_calls());
    }

    fn look(&self, name: &str) -> FileState {
        match fs::metadata(self.rt, name) {
            Ok(found) if found.is_dir() => FileState::Folder,
            Ok(_) => match fs::open(self.rt, name) {
                Ok(_) => FileState::Unknown,
                Err(error) => state_of(&error),
            },
            Err(error) => state_of(&error),
        }
    }
}
