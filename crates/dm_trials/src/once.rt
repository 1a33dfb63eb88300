//! Files and a writer of which one call fails, once: the next call would go well. So a second try behind a failed call shows, in
//! what is written, in the status and in how many calls were made.

ghost use Rattle.std.specs.Prelude.{◌≡◌, IfOk};

use std::alloc::Allocator;
use std::cell::Cell;
use std::fs::{Files, Metadata, OpenFile, OpenOptions};
use std::io::{self, Error, ErrorKind, Read, Seek, SeekFrom, Write};

/// How a call fails.
#[derive(Clone, Copy)]
pub enum Fault {
    Broken,
    Interrupted,
    /// It moves nothing.
    Nothing,
}

impl Fault {
    /// What it is called in the table.
    pub fn name(self) -> &'static str {
        match self {
            Fault::Broken => "is broken",
            Fault::Interrupted => "is interrupted",
            Fault::Nothing => "moves nothing",
        }
    }

    /// What the call answers.
    fn answer(self) -> io::Result<usize>
        ensures { IfOk result (λ n. n ≡ 0) }
    {
        match self {
            Fault::Broken => Err(Error::from(ErrorKind::BrokenPipe)),
            Fault::Interrupted => Err(Error::from(ErrorKind::Interrupted)),
            Fault::Nothing => Ok(0),
        }
    }
}

/// Which call fails, counted from 1, and how.
#[derive(Clone, Copy)]
pub struct Failing {
    pub call: u64,
    pub fault: Fault,
}

/// Files, a file of them, or a writer: all that are made of one count their calls together.
#[derive(Drop)]
pub struct Once<'a, T> {
    pub inner: T,
    calls: &'a Cell<u64>,
    failing: Failing,
}

impl<'a, T> Once<'a, T> {
    /// Over this, with a count that stands at 0.
    pub fn new(inner: T, calls: &'a Cell<u64>, failing: Failing) -> Self {
        Once {
            inner,
            calls,
            failing,
        }
    }

    /// Counts a call, and says whether it is the one that fails.
    fn is_failing(&self) -> bool {
        let call = self.calls.get().saturating_add(1);
        self.calls.set(call);
        call == self.failing.call
    }
}

impl<T: Read> Read for Once<'_, T> {
    fn read(&mut self, buf: &mut [u8]) -> io::Result<usize> {
        if self.is_failing() {
            return self.failing.fault.answer();
        }
        self.inner.read(buf)
    }
}

impl<T: Write> Write for Once<'_, T> {
    fn write(&mut self, buf: &[u8]) -> io::Result<usize> {
        if self.is_failing() {
            return self.failing.fault.answer();
        }
        self.inner.write(buf)
    }

    fn flush(&mut self) -> io::Result<()> {
        self.inner.flush()
    }
}

impl<T: Seek> Seek for Once<'_, T> {
    fn seek(&mut self, to: SeekFrom) -> io::Result<u64> {
        self.inner.seek(to)
    }
}

impl<T: OpenFile> OpenFile for Once<'_, T> {
    fn metadata(&self) -> io::Result<Metadata> {
        self.inner.metadata()
    }

    fn set_len(&self, size: u64) -> io::Result<()> {
        self.inner.set_len(size)
    }

    fn sync_all(&self) -> io::Result<()> {
        self.inner.sync_all()
    }

    fn sync_data(&self) -> io::Result<()> {
        self.inner.sync_data()
    }
}

// The program opens files and reads them, and does nothing else with them.
impl<'a, R: Files> Files for Once<'a, R> {
    type File = Once<'a, R::File>;

    type Dir = R::Dir;

    fn open_file(&self, how: &OpenOptions, path: &str) -> io::Result<Once<'a, R::File>> {
        if self.is_failing() {
            self.failing.fault.answer()?;
        }
        let file = self.inner.open_file(how, path)?;
        Ok(Once::new(file, self.calls, self.failing))
    }

    fn open_dir(&self, path: &str) -> io::Result<R::Dir> {
        self.inner.open_dir(path)
    }

    fn metadata(&self, path: &str) -> io::Result<Metadata> {
        self.inner.metadata(path)
    }

    fn symlink_metadata(&self, path: &str) -> io::Result<Metadata> {
        self.inner.symlink_metadata(path)
    }

    fn copy(&self, from: &str, to: &str) -> io::Result<u64> {
        self.inner.copy(from, to)
    }

    fn rename(&self, from: &str, to: &str) -> io::Result<()> {
        self.inner.rename(from, to)
    }

    fn remove_file(&self, path: &str) -> io::Result<()> {
        self.inner.remove_file(path)
    }

    fn create_dir(&self, path: &str) -> io::Result<()> {
        self.inner.create_dir(path)
    }

    fn remove_dir(&self, path: &str) -> io::Result<()> {
        self.inner.remove_dir(path)
    }

    fn remove_dir_all<B: Allocator>(&self, alloc: B, path: &str) -> io::Result<()> {
        self.inner.remove_dir_all(alloc, path)
    }
}
