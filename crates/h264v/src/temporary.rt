//! A temporary file. Its name is removed as soon as it is open, so that nothing is left of it, however the program ends.
#![tactic(auto)]

use crate::output::new_in;
use h264_command::storing::Store;
use std::fs::{File, OpenOptions};
use std::io::Read;
use std::os::unix::fs::{FileExt, OpenOptionsExt};
use std::{env, fs, io};

/// Its user alone reads and writes it.
const MODE: u32 = 0o600;

/// The folders of temporary files, where the system names none. The first is on a disk where the second is in memory.
const FOLDERS: [&str; 2] = ["/var/tmp", "/tmp"];

/// A new file in this folder, whose name is removed.
fn nameless_in(rt: &HostRuntime, folder: &str) -> io::Result<File> {
    let mut options = OpenOptions::new();
    options.read(true).write(true).create_new(true).mode(MODE);
    let folder = format!(in rt.alloc(); "{folder}/")?;
    let (file, name) = new_in(rt, folder.as_str(), &options)?;
    fs::remove_file(rt, name.as_str())?;
    Ok(file)
}

/// A new file in the folder of TMPDIR, or else of temporary files, whose name is removed.
fn nameless(rt: &HostRuntime) -> io::Result<File> {
    if let Ok(folder) = env::var(rt, "TMPDIR") {
        if !folder.is_empty() {
            return nameless_in(rt, folder.as_str());
        }
    }
    let [first, second] = FOLDERS;
    nameless_in(rt, first).or_else(|_| nameless_in(rt, second))
}

/// A temporary file: made when it takes its first piece, and closed when it has given all.
#[derive(Drop)]
pub struct TemporaryFile<'a> {
    rt: &'a HostRuntime,
    file: Option<File>,
    /// How many bytes it took.
    taken: u64,
    /// How many of these it gave.
    given: u64,
}

impl<'a> TemporaryFile<'a> {
    /// None yet.
    pub fn new(rt: &'a HostRuntime) -> TemporaryFile<'a> {
        TemporaryFile {
            rt,
            file: None,
            taken: 0,
            given: 0,
        }
    }
}

impl Read for TemporaryFile<'_> {
    fn read(&mut self, piece: &mut [u8]) -> io::Result<usize> {
        let Some(file) = &self.file else {
            return Ok(0);
        };
        let n = file.read_at(piece, self.given)?;
        self.given = self.given.saturating_add(n as u64);
        if self.given >= self.taken {
            self.file = None;
        }
        Ok(n)
    }
}

impl Store for TemporaryFile<'_> {
    fn put(&mut self, piece: &[u8]) -> io::Result<()> {
        let file = match self.file.take() {
            Some(file) => file,
            None => nameless(self.rt)?,
        };
        let written = file.write_all_at(piece, self.taken);
        self.file = Some(file);
        written?;
        self.taken = self.taken.saturating_add(piece.len() as u64);
        Ok(())
    }
}
