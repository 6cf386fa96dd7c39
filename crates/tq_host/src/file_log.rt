//! A log in a file.

use crate::log::Log;
use crate::replaying::whole_lines;
use std::alloc::Global;
use std::fs::{File, Files, OpenOptions, TryLockError};
use std::io::{Error, ErrorKind, Read, Write};
use std::marker::Model;
use std::path::Path;
use tq_devices::Failed;

/// A log in a file that is open for appending. Contracts see it as the number of its calls that failed.
#[derive(Drop)]
pub struct FileLog {
    file: File,
    failures: u64,
}

impl Model for FileLog {
    ghost use Rattle.std.specs.Prelude.{ℕ};

    ghost Value = { ℕ };

    ghost view = { λ log. log.failures };
}

/// A log that was opened, and the text of its lines.
#[derive(Drop)]
pub struct OpenedLog {
    pub log: FileLog,
    pub text: Vec<u8>,
}

/// Why a file is no log that a host can go on with.
#[derive(Clone, Copy, Debug, PartialEq, Eq, thiserror::Error)]
pub enum LogFault {
    /// Memory was refused.
    #[error("fault memory")]
    Memory,
    /// Another host has the file.
    #[error("fault locked")]
    Locked,
    /// It is no regular file, or cannot be opened, read, cut or synced.
    #[error("fault log")]
    Log,
}

impl FileLog {
    ghost use Rattle.std.specs.Prelude.{◌≡◌, IfOk};
    ghost use Rattle.tq_host.specs.Lines.{EndsWhole};

    /// A log none of whose calls failed yet.
    pub fn new(file: File) -> FileLog
        ensures { result ≡ 0 }
    {
        FileLog { file, failures: 0 }
    }

    /// The log in the file of that path, for this host alone, with the text of its lines. The file is made where it is missing.
    /// What stands behind its last line feed, a write that was cut off, is cut off the file. Then it is synced, and the folder
    /// that names it.
    ///
    /// A file that another host has is left as it is.
    pub fn open<R: Files<File = File>>(
        alloc: Global,
        files: &R,
        path: &str,
    ) -> Result<OpenedLog, LogFault>
        ensures new { IfOk result (λ opened. opened.log ≡ 0) }
        ensures whole { IfOk result (λ opened. EndsWhole opened.text.items) }
    {
        let mut file = open_alone(files, path)?;
        let mut text = read_text(alloc, &mut file)?;
        let count = whole_lines(text.as_slice()).len();
        if count < text.len() {
            if let Err(error) = file.set_len(count as u64) {
                return Err(fault_of(error));
            }
        }
        text.truncate(count);
        sync(files, &file, path)?;
        let log = FileLog::new(file);
        Ok(OpenedLog { log, text })
    }
}

/// Opens the file for reading and appending, and takes its lock.
fn open_alone<R: Files<File = File>>(files: &R, path: &str) -> Result<File, LogFault> {
    let mut options = OpenOptions::new();
    options.read(true).append(true).create(true);
    let file = match options.open(files, path) {
        Ok(file) => file,
        Err(error) => return Err(fault_of(error)),
    };
    match file.try_lock() {
        Ok(()) => Ok(file),
        Err(TryLockError::WouldBlock) => Err(LogFault::Locked),
        Err(TryLockError::Error(error)) => Err(fault_of(error)),
    }
}

/// The bytes of a regular file.
fn read_text(alloc: Global, file: &mut File) -> Result<Vec<u8>, LogFault> {
    let found = match file.metadata() {
        Ok(found) => found,
        Err(error) => return Err(fault_of(error)),
    };
    if !found.is_file() {
        return Err(LogFault::Log);
    }
    let Ok(length) = usize::try_from(found.len()) else {
        return Err(LogFault::Memory);
    };
    let Ok(mut text) = Vec::with_capacity(alloc, length) else {
        return Err(LogFault::Memory);
    };
    match file.read_to_end(&mut text) {
        Ok(_) => Ok(text),
        Err(error) => Err(fault_of(error)),
    }
}

/// Syncs the file, and the folder that names it.
fn sync<R: Files<File = File>>(files: &R, file: &File, path: &str) -> Result<(), LogFault> {
    if let Err(error) = file.sync_all() {
        return Err(fault_of(error));
    }
    let folder = match File::open(files, folder_of(path)) {
        Ok(folder) => folder,
        Err(error) => return Err(fault_of(error)),
    };
    match folder.sync_all() {
        Ok(()) => Ok(()),
        Err(error) => Err(fault_of(error)),
    }
}

/// The folder that names the file of that path.
fn folder_of(path: &str) -> &str {
    match Path::new(path).parent() {
        Some(folder) if !folder.as_str().is_empty() => folder.as_str(),
        _ => ".",
    }
}

fn fault_of(error: Error) -> LogFault {
    match error.kind() {
        ErrorKind::OutOfMemory => LogFault::Memory,
        _ => LogFault::Log,
    }
}

impl Log for FileLog {
    ghost use Rattle.std.specs.Prelude.{None};

    ghost kept = { λ log. None };

    ghost synced = { λ log. None };

    ghost failed = { λ log. log };

    fn failures(&self) -> u64 {
        self.failures
    }

    fn append(&mut self, bytes: &[u8]) -> Result<(), Failed> {
        match self.file.write_all(bytes) {
            Ok(()) => Ok(()),
            Err(_) => {
                self.failures += 1;
                Err(Failed)
            }
        }
    }

    fn sync(&mut self) -> Result<(), Failed> {
        match self.file.sync_data() {
            Ok(()) => Ok(()),
            Err(_) => {
                self.failures += 1;
                Err(Failed)
            }
        }
    }
}
