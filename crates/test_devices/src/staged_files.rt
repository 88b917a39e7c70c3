// A file system over that of a runtime, in which a chosen call fails, or a file is replaced as soon as it is opened.
use std::alloc::{Allocator, Global};
use std::cell::Cell;
use std::fs::{File, Metadata, OpenOptions};
use std::io;
use std::io::ErrorKind;
use std::path::PathBuf;
use std::rt::Files;

#[derive(Drop)]
pub(crate) struct StagedFiles<R> {
    rt: R,
    // how many calls are made until one fails, or 0
    until_fault: Cell<u64>,
    // a file that gets the name of the next file opened
    replacement: Cell<Option<String>>,
}

impl<R: Files<File = File>> StagedFiles<R> {
    pub(crate) fn new(rt: R) -> Self {
        StagedFiles {
            rt,
            until_fault: Cell::new(0),
            replacement: Cell::new(None),
        }
    }

    // The call of this number fails, counted from 1. 0: none fails.
    pub(crate) fn fail_at(&self, number: u64) {
        self.until_fault.set(number);
    }

    // The next file opened is replaced at once: the file of this name gets its name.
    pub(crate) fn replace_next(&self, replacement: String) {
        self.replacement.set(Some(replacement));
    }

    fn call(&self) -> io::Result<()> {
        let until = self.until_fault.get();
        self.until_fault.set(until.saturating_sub(1));
        if until == 1 {
            return Err(io::Error::from(ErrorKind::PermissionDenied));
        }
        Ok(())
    }
}

impl<R: AllocGlobal> Alloc for StagedFiles<R> {
    type A = Global;

    fn alloc(&self) -> Global {
        self.rt.alloc()
    }
}

impl<R: Files<File = File>> Files for StagedFiles<R> {
    type File = File;

    type Dir = R::Dir;

    fn open_file(&self, how: &OpenOptions, path: &str) -> io::Result<File> {
        self.call()?;
        let file = self.rt.open_file(how, path)?;
        if let Some(replacement) = self.replacement.take() {
            self.rt.rename(replacement.as_str(), path)?;
        }
        Ok(file)
    }

    fn open_dir(&self, path: &str) -> io::Result<R::Dir> {
        self.rt.open_dir(path)
    }

    fn metadata(&self, path: &str) -> io::Result<Metadata> {
        self.call()?;
        self.rt.metadata(path)
    }

    fn symlink_metadata(&self, path: &str) -> io::Result<Metadata> {
        self.call()?;
        self.rt.symlink_metadata(path)
    }

    fn copy(&self, from: &str, to: &str) -> io::Result<u64> {
        self.rt.copy(from, to)
    }

    fn rename(&self, from: &str, to: &str) -> io::Result<()> {
        self.call()?;
        self.rt.rename(from, to)
    }

    fn remove_file(&self, path: &str) -> io::Result<()> {
        self.rt.remove_file(path)
    }

    fn create_dir(&self, path: &str) -> io::Result<()> {
        self.rt.create_dir(path)
    }

    fn remove_dir(&self, path: &str) -> io::Result<()> {
        self.rt.remove_dir(path)
    }

    fn remove_dir_all<B: Allocator>(&self, alloc: B, path: &str) -> io::Result<()> {
        self.rt.remove_dir_all(alloc, path)
    }

    fn canonicalize<B: Allocator>(&self, alloc: B, path: &str) -> io::Result<PathBuf<B>> {
        self.call()?;
        self.rt.canonicalize(alloc, path)
    }
}
