//! The file of `--output`: written beside its name, which it takes once it is whole. So no link is followed, and nothing half written has the name.
#![tactic(auto)]

use h264_words::words::has_odd_byte;
use std::alloc::Global;
use std::fs::{File, Metadata, OpenOptions};
use std::io::{BufWriter, ErrorKind, Write};
use std::{fs, io, process};

/// The names of an output that is not whole yet.
#[derive(Drop)]
struct Names {
    /// The name under which it is written.
    temporary: String,
    /// The name that it takes.
    taken: String,
}

/// A file that is written to.
#[derive(Drop)]
pub struct SystemOutput<'a> {
    rt: &'a HostRuntime,
    writer: BufWriter<File>,
    /// None of a device, a FIFO and the like, which are written as they are.
    names: Option<Names>,
}

impl Write for SystemOutput<'_> {
    fn write(&mut self, bytes: &[u8]) -> io::Result<usize> {
        self.writer.write(bytes)
    }

    fn flush(&mut self) -> io::Result<()> {
        self.writer.flush()
    }
}

impl SystemOutput<'_> {
    /// Gives it its name.
    pub fn finish(self) -> io::Result<()> {
        let SystemOutput {
            rt,
            mut writer,
            names,
        } = self;
        writer.flush()?;
        let Some(names) = names else {
            return Ok(());
        };
        let renamed = fs::rename(rt, names.temporary.as_str(), names.taken.as_str());
        if renamed.is_err() {
            let _ = fs::remove_file(rt, names.temporary.as_str());
        }
        renamed
    }

    /// Removes it, where it has no name of its own yet.
    pub fn abandon(self) {
        let SystemOutput { rt, names, .. } = self;
        if let Some(names) = names {
            let _ = fs::remove_file(rt, names.temporary.as_str());
        }
    }
}

/// Whether a name is a link of the system's to an open file, as /dev/stderr and /proc/self/fd/3 are.
pub fn is_link_of_the_system(rt: &HostRuntime, name: &str) -> bool {
    let is_theirs = name.starts_with("/dev/") && !name.starts_with("/dev/shm/");
    if !is_theirs && !name.starts_with("/proc/") {
        return false;
    }
    match fs::symlink_metadata(rt, name) {
        Ok(metadata) => metadata.is_symlink(),
        Err(_) => false,
    }
}

/// How many names are tried for a new file.
const MOST_NAMES: u32 = 1000;

/// The folder of a name, with the slash after it; none where it has none.
fn folder_of(name: &str) -> &str {
    match name.rfind('/') {
        Some(slash) => name.get(..=slash).unwrap_or(""),
        None => "",
    }
}

/// A new file in a folder, which ends with a slash, with its own name.
pub fn new_in(rt: &HostRuntime, folder: &str, options: &OpenOptions) -> io::Result<(File, String)> {
    let alloc: Global = rt.alloc();
    let process = process::id(rt.process());
    for number in 0..MOST_NAMES {
        let path = format!(in alloc; "{folder}.h264v-{process}-{number}")?;
        match options.open(rt, path.as_str()) {
            Ok(file) => return Ok((file, path)),
            Err(error) if error.kind() == ErrorKind::AlreadyExists => {}
            Err(error) => return Err(error),
        }
    }
    Err(io::Error::from(ErrorKind::AlreadyExists))
}

/// A new file beside a name, with its own name.
fn new_beside(rt: &HostRuntime, name: &str) -> io::Result<(File, String)> {
    let mut options = OpenOptions::new();
    options.write(true).create_new(true);
    new_in(rt, folder_of(name), &options)
}

/// What has this name now, where anything has.
fn what_has(rt: &HostRuntime, name: &str) -> io::Result<Option<Metadata>> {
    match fs::metadata(rt, name) {
        Ok(metadata) => Ok(Some(metadata)),
        Err(error) if error.kind() == ErrorKind::NotFound => Ok(None),
        Err(error) => Err(error),
    }
}

/// A file that takes the place of one, or of none.
fn make_file<'a>(
    rt: &'a HostRuntime,
    name: &str,
    old: Option<Metadata>,
) -> io::Result<SystemOutput<'a>> {
    if old.is_some() {
        // One that may not be written to stays as it is.
        OpenOptions::new().write(true).open(rt, name)?;
    }
    let taken = String::from_str(rt.alloc(), name)?;
    let (file, temporary) = new_beside(rt, name)?;
    if let Some(old) = old {
        let _ = file.set_permissions(old.permissions());
    }
    Ok(SystemOutput {
        rt,
        writer: BufWriter::new(rt.alloc(), file)?,
        names: Some(Names { temporary, taken }),
    })
}

/// Opens a device, a FIFO or the like, which is written as it is. What it holds stays: each write goes to its end.
fn open_device<'a>(rt: &'a HostRuntime, name: &str) -> io::Result<SystemOutput<'a>> {
    let file = OpenOptions::new().append(true).open(rt, name)?;
    Ok(SystemOutput {
        rt,
        writer: BufWriter::new(rt.alloc(), file)?,
        names: None,
    })
}

/// The output of this name: a file that is written beside the name, or a device, a FIFO or the like as it is.
pub fn make_output<'a>(rt: &'a HostRuntime, name: &str) -> io::Result<SystemOutput<'a>> {
    if has_odd_byte(name) {
        return Err(io::Error::new(
            ErrorKind::InvalidFilename,
            "the name of an output has to be UTF-8",
        ));
    }
    if name.is_empty() || is_link_of_the_system(rt, name) {
        return open_device(rt, name);
    }
    match what_has(rt, name)? {
        Some(old) if !old.is_file() => open_device(rt, name),
        old => make_file(rt, name, old),
    }
}
