//! A spool over a file. A save writes a new file beside the old one, makes sure of it, and gives it the old
//! one's name, so that the file is the old one or the new one whatever happens.
ghost use Rattle.std.specs.Prelude.{◌≡◌, None, false};

use job_values::{NoMemory, Seq, Text};
use outside::{Failed, Spool, SpoolError};
use std::alloc::Global;
use std::fs::{self, Files, OpenFile};
use std::io::{self, ErrorKind, Read, Write};
use std::marker::Model;

/// The names of the file and of the new one beside it.
#[derive(Drop)]
struct FileNames {
    path: String,
    beside: String,
}

impl FileNames {
    /// The names for this path; the new file's ends in `.new`.
    fn of(alloc: Global, path: &str) -> Result<FileNames, NoMemory> {
        let mut beside = String::from_str(alloc, path)?;
        beside.push_str(".new")?;
        Ok(FileNames {
            path: String::from_str(alloc, path)?,
            beside,
        })
    }
}

/// A spool over a file of a file system. Before `attach` it has no file, and every load and save fails.
#[derive(Drop)]
pub struct FileSpool<R> {
    files: R,
    alloc: Global,
    names: Option<FileNames>,
    failed: bool,
    faults: u64,
}

impl<R> Model for FileSpool<R> {
    ghost use Rattle.std.specs.Prelude.{None};
    ghost use Rattle.outside.specs.Spools.{SpoolView};

    // The bytes of a file are not told.
    ghost Value = { SpoolView };

    ghost view = { λ s. record { kept = None; failed = s.failed; faults = s.faults } };
}

impl<R> FileSpool<R> {
    /// A spool of no file yet.
    pub fn new(alloc: Global, files: R) -> FileSpool<R>
        ensures { result ≡ record { kept = None; failed = false; faults = 0 } }
    {
        FileSpool {
            files,
            alloc,
            names: None,
            failed: false,
            faults: 0,
        }
    }
}

/// The folder that a path lies in.
fn folder_of(path: &str) -> &str {
    match path.rfind('/') {
        Some(0) => "/",
        Some(at) => &path[..at],
        None => ".",
    }
}

/// Writes a whole file and makes sure of its bytes.
fn write_new<R: Files>(files: &R, path: &str, bytes: &[u8]) -> io::Result<()> {
    let mut file = fs::create(files, path)?;
    file.write_all(bytes)?;
    file.sync_all()
}

/// Writes the new file, gives it the old one's name, and makes sure of the name.
fn replace<R: Files>(files: &R, names: &FileNames, bytes: &[u8]) -> io::Result<()> {
    let path = names.path.as_str();
    let beside = names.beside.as_str();
    write_new(files, beside, bytes)?;
    fs::rename(files, beside, path)?;
    fs::open(files, folder_of(path))?.sync_all()
}

/// The bytes of a file; none where there is no file.
fn read_whole<R: Files>(files: &R, alloc: Global, path: &str) -> io::Result<Vec<u8>> {
    let mut bytes = Vec::new(alloc);
    match fs::open(files, path) {
        Ok(mut file) => {
            file.read_to_end(&mut bytes)?;
        }
        Err(error) => {
            if error.kind() != ErrorKind::NotFound {
                return Err(error);
            }
        }
    }
    Ok(bytes)
}

impl<R: Files + Drop> Spool for FileSpool<R> {
    ghost seen = { λ s. s };

    fn attach(&mut self, file: &Text) -> Result<(), SpoolError> {
        match FileNames::of(self.alloc, file.as_str()) {
            Ok(names) => {
                self.names = Some(names);
                Ok(())
            }
            Err(NoMemory) => Err(SpoolError::NoMemory),
        }
    }

    fn load(&mut self) -> Result<Seq<u8>, SpoolError> {
        if let Some(names) = &self.names {
            match read_whole(&self.files, self.alloc, names.path.as_str()) {
                Ok(bytes) => return Ok(Seq::of(bytes)),
                Err(error) => {
                    if error.kind() == ErrorKind::OutOfMemory {
                        return Err(SpoolError::NoMemory);
                    }
                }
            }
        }
        self.faults = self.faults.saturating_add(1);
        Err(SpoolError::Failed)
    }

    fn save(&mut self, bytes: &[u8]) -> Result<(), Failed> {
        if let Some(names) = &self.names {
            if replace(&self.files, names, bytes).is_ok() {
                self.failed = false;
                return Ok(());
            }
        }
        self.failed = true;
        self.faults = self.faults.saturating_add(1);
        Err(Failed)
    }
}
