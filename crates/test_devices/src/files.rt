// Logs over files, and calls on the files themselves.
use crate::logs::LogCalls;
use crate::staged_files::StagedFiles;
use std::alloc::Global;
use std::fs::{File, Permissions};
use std::os::unix::fs::{MetadataExt, PermissionsExt, symlink};
use std::rt::Files;
use std::{fs, io};
use test_script::{Device, Script, answer_of, bytes_of, number_of, shown, silent};
use ts_io::FileLog;

/// `FileLog`: two logs over the files of the system, and these files.
pub(crate) fn logs(rt: &HostRuntime, script: &mut Script) -> io::Result<()> {
    script.run(&mut FileCalls::new(rt, rt))
}

/// `StagedFiles`: the same over files, of which a call fails or one is replaced. `fail-at 3`: the third call from now
/// on fails, and with 0 none. `replace-next NAME`: the file of this name takes the place of the next file opened.
pub(crate) fn staged_logs(rt: &HostRuntime, script: &mut Script) -> io::Result<()> {
    let files = StagedFiles::new(rt);
    script.run(&mut StagedCalls {
        files: &files,
        calls: FileCalls::new(rt, &files),
    })
}

// The calls of the second log begin with `other-`. `close` puts a log that is not open in the place of one.
#[derive(Drop)]
struct FileCalls<'a, R> {
    rt: &'a HostRuntime,
    files: R,
    log: LogCalls<FileLog<R>>,
    other: LogCalls<FileLog<R>>,
}

impl<'a, R: Files<File = File> + AllocGlobal + Copy> FileCalls<'a, R> {
    fn new(rt: &'a HostRuntime, files: R) -> Self {
        FileCalls {
            rt,
            files,
            log: LogCalls::new(FileLog::new(files)),
            other: LogCalls::new(FileLog::new(files)),
        }
    }

    fn close(&mut self, alloc: Global) -> io::Result<Option<String>> {
        self.log = LogCalls::new(FileLog::new(self.files));
        silent(alloc)
    }

    fn close_other(&mut self, alloc: Global) -> io::Result<Option<String>> {
        self.other = LogCalls::new(FileLog::new(self.files));
        silent(alloc)
    }
}

impl<R: Files<File = File> + AllocGlobal + Copy> Device for FileCalls<'_, R> {
    fn answer(&mut self, alloc: Global, verb: &str, text: &str) -> io::Result<Option<String>> {
        match verb {
            "close" => return self.close(alloc),
            "other-close" => return self.close_other(alloc),
            _ => {}
        }
        if let Some(verb) = verb.strip_prefix("other-") {
            return self.other.answer(alloc, verb, text);
        }
        if let Some(verb) = verb.strip_prefix("file-") {
            return on_files(self.rt, alloc, verb, text);
        }
        self.log.answer(alloc, verb, text)
    }
}

#[derive(Drop)]
struct StagedCalls<'a> {
    files: &'a StagedFiles<&'a HostRuntime>,
    calls: FileCalls<'a, &'a StagedFiles<&'a HostRuntime>>,
}

impl Device for StagedCalls<'_> {
    fn answer(&mut self, alloc: Global, verb: &str, text: &str) -> io::Result<Option<String>> {
        match verb {
            "fail-at" => self.files.fail_at(number_of(text)),
            "replace-next" => self.files.replace_next(String::from_str(alloc, text)?),
            _ => return self.calls.answer(alloc, verb, text),
        }
        silent(alloc)
    }
}

// The calls that ask: `file-bytes NAME`, `file-exists NAME`, `file-is-link NAME` and `file-mode NAME`.
fn on_files(rt: &HostRuntime, alloc: Global, verb: &str, text: &str) -> io::Result<Option<String>> {
    match verb {
        "bytes" => shown(alloc, &fs::read(rt, text)?),
        "exists" => answer_of(alloc, fs::exists(rt, text)?),
        "is-link" => answer_of(alloc, fs::symlink_metadata(rt, text)?.is_symlink()),
        "mode" => mode(rt, alloc, text),
        _ => changes(rt, alloc, verb, text),
    }
}

fn mode(rt: &HostRuntime, alloc: Global, name: &str) -> io::Result<Option<String>> {
    let mode = fs::metadata(rt, name)?.mode() & 0o777;
    answer_of(alloc, format_args!("{mode:o}"))
}

// The calls that change something: `file-write NAME BYTES`, `file-rename FROM TO`, `file-link TARGET NAME`, and with a
// name `file-remove`, `file-protect` (mode 640), `file-folder` and `file-remove-folder`.
fn changes(rt: &HostRuntime, alloc: Global, verb: &str, text: &str) -> io::Result<Option<String>> {
    let (name, rest) = text.split_once(' ').unwrap_or((text, ""));
    match verb {
        "write" => fs::write(rt, name, &bytes_of(alloc, rest)?)?,
        "rename" => fs::rename(rt, name, rest)?,
        "link" => symlink(rt, name, rest)?,
        "remove" => fs::remove_file(rt, name)?,
        "protect" => fs::set_permissions(rt, name, Permissions::from_mode(0o640))?,
        "folder" => fs::create_dir(rt, name)?,
        "remove-folder" => fs::remove_dir_all(rt, name)?,
        _ => return Ok(None),
    }
    silent(alloc)
}
