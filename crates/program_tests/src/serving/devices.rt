//! Readers and writers that give little, or fail.

ghost use Rattle.std.specs.Prelude.{None};

use fast_host::{FileState, Source};
use fast_io::Counted;
use std::io::{self, Read, Write};

/// An error of a device.
fn broken() -> io::Error {
    io::Error::from(io::ErrorKind::Other)
}

/// What stands after the bytes of a source.
#[derive(Clone, Copy)]
pub enum After {
    End,
    Error,
}

/// Gives bytes, at most so many a read.
#[derive(Clone, Copy, Drop)]
pub struct Feed<'a> {
    pub rest: &'a [u8],
    pub width: usize,
    pub after: After,
}

impl Read for Feed<'_> {
    fn read(&mut self, buf: &mut [u8]) -> io::Result<usize> {
        match self.after {
            After::Error if self.rest.is_empty() => Err(broken()),
            _ => {
                let len = buf.len().min(self.width);
                self.rest.read(&mut buf[..len])
            }
        }
    }
}

/// Bytes that are given whole.
pub fn whole(rest: &[u8]) -> Feed<'_> {
    Feed {
        rest,
        width: 4096,
        after: After::End,
    }
}

/// The name of the file with the templates, and of one with a stream.
pub const TEMPLATES: &str = "templates.json";

pub const STREAM: &str = "stream.fast";

/// The names of a folder, and of a file that may not be read.
pub const FOLDER: &str = "folder";

pub const FORBIDDEN: &str = "forbidden";

/// Two files and a standard input.
#[derive(Drop)]
pub struct Shelf<'a> {
    pub templates: Feed<'a>,
    pub stream: Feed<'a>,
    pub standard: Feed<'a>,
    // of all names together
    pub unopened: u64,
    pub failed: u64,
}

impl<'a> Source for Shelf<'a> {
    type File = Counted<Feed<'a>>;

    type Standard = Counted<Feed<'a>>;

    ghost file = { λ s name. None };

    ghost input = { λ s. None };

    ghost unopened = { λ s name. s.unopened };

    ghost failed = { λ s name. s.failed };

    fn open(&mut self, name: &str) -> Option<Counted<Feed<'a>>> {
        if name == TEMPLATES {
            Some(Counted::new(self.templates))
        } else if name == STREAM {
            Some(Counted::new(self.stream))
        } else {
            self.unopened = self.unopened.saturating_add(1);
            None
        }
    }

    fn close(&mut self, _name: &str, reader: Counted<Feed<'a>>) {
        self.failed = self.failed.saturating_add(reader.failed_calls());
    }

    fn standard(&mut self) -> Counted<Feed<'a>> {
        Counted::new(self.standard)
    }

    fn leave_standard(&mut self, reader: Counted<Feed<'a>>) {
        self.failed = self.failed.saturating_add(reader.failed_calls());
    }

    fn look(&self, name: &str) -> FileState {
        match name {
            FOLDER => FileState::Folder,
            FORBIDDEN => FileState::Forbidden,
            TEMPLATES | STREAM => FileState::Unknown,
            _ => FileState::Missing,
        }
    }
}

/// What a full sink answers, and to what.
#[derive(Clone, Copy)]
pub enum Full {
    /// It answers an error to a write.
    Error,
    /// It takes no byte.
    Nothing,
    /// It answers an error to a flush, and takes all bytes.
    Flush,
}

/// Keeps the bytes for which it has room, and counts the flushes that it lets through. (All that is served goes to such
/// writers: the program is compiled once for each type of a writer.)
#[derive(Drop)]
pub struct Sink<'a> {
    pub kept: &'a mut Vec<u8>,
    pub flushes: &'a mut u32,
    pub room: usize,
    pub full: Full,
}

/// A sink with so much room.
pub fn with_room<'a>(
    kept: &'a mut Vec<u8>,
    flushes: &'a mut u32,
    (room, full): (usize, Full),
) -> Sink<'a> {
    Sink {
        kept,
        flushes,
        room,
        full,
    }
}

impl Write for Sink<'_> {
    fn write(&mut self, bytes: &[u8]) -> io::Result<usize> {
        match self.full {
            Full::Flush => self.kept.write(bytes),
            Full::Error if self.room == 0 => Err(broken()),
            _ => {
                let count = bytes.len().min(self.room);
                self.room -= count;
                self.kept.write(&bytes[..count])
            }
        }
    }

    fn flush(&mut self) -> io::Result<()> {
        match self.full {
            Full::Flush => Err(broken()),
            _ => {
                *self.flushes = self.flushes.saturating_add(1);
                Ok(())
            }
        }
    }
}
