//! What lies below a folder, and the names that a list has.
#![tactic(auto)]

use h264_command::lists::Below;
use h264_words::words::{has_odd_byte, word_of};
use std::alloc::{AllocError, Global};
use std::fs::Files;
use std::io::Read;
use std::{fs, io};

/// The bytes that a read of a folder takes at most.
const FOLDER_BYTES: usize = 4096;

/// What a name in a folder stands for.
#[derive(Clone, Copy)]
enum Kind {
    Folder,
    /// A file, or what can't be looked into, so that its reading fails and is told.
    File,
    /// A socket, a FIFO or a device.
    Other,
}

/// Adds the names of bytes that have a byte 00 after each, but for the folder's own and that of the one above.
fn add_names(alloc: Global, names: &mut Vec<String>, bytes: &[u8]) -> Result<(), AllocError> {
    for name in bytes.split(|byte| *byte == 0) {
        if !name.is_empty() && name != b".".as_slice() && name != b"..".as_slice() {
            names.push(word_of(alloc, name)?)?;
        }
    }
    Ok(())
}

/// The names in a folder.
fn names_in(rt: &HostRuntime, folder: &str) -> io::Result<Vec<String>> {
    let alloc: Global = rt.alloc();
    let inside = format!(in alloc; "{folder}/")?;
    let mut opened = rt.open_dir(inside.as_str())?;
    let mut names: Vec<String> = Vec::new(alloc);
    let mut bytes = [0u8; FOLDER_BYTES];
    for _ in 0..u64::MAX {
        let count = opened.read(&mut bytes)?;
        if count == 0 {
            break;
        }
        add_names(alloc, &mut names, &bytes[..count])?;
    }
    Ok(names)
}

/// What a name stands for.
fn kind_of(rt: &HostRuntime, name: &str) -> Kind {
    if has_odd_byte(name) {
        return Kind::File;
    }
    if rt.open_dir(name).is_ok() {
        return Kind::Folder;
    }
    match fs::metadata(rt, name) {
        Ok(metadata) if !metadata.is_file() && !metadata.is_dir() => Kind::Other,
        _ => Kind::File,
    }
}

/// What lies below a folder, in the order of the names. Links to folders are not followed: their reading fails and is told.
pub fn below(rt: &HostRuntime, folder: &str) -> io::Result<Below> {
    let alloc: Global = rt.alloc();
    let mut below = Below {
        files: Vec::new(alloc),
        others: Vec::new(alloc),
    };
    let mut folders: Vec<String> = Vec::new(alloc);
    add_folder(rt, &mut below, &mut folders, folder)?;
    for _ in 0..u64::MAX {
        let Some(inner) = folders.pop() else {
            break;
        };
        if add_folder(rt, &mut below, &mut folders, inner.as_str()).is_err() {
            below.files.push(inner)?;
        }
    }
    below.files.sort_unstable();
    below.others.sort_unstable();
    Ok(below)
}

/// Adds what lies in a folder, and its folders.
fn add_folder(
    rt: &HostRuntime,
    below: &mut Below,
    folders: &mut Vec<String>,
    folder: &str,
) -> io::Result<()> {
    let alloc: Global = rt.alloc();
    let slash = if folder.ends_with('/') { "" } else { "/" };
    for name in names_in(rt, folder)? {
        let name = name.as_str();
        let path = format!(in alloc; "{folder}{slash}{name}")?;
        match kind_of(rt, path.as_str()) {
            Kind::Folder => folders.push(path)?,
            Kind::File => below.files.push(path)?,
            Kind::Other => below.others.push(path)?,
        }
    }
    Ok(())
}

/// The names that a list has, each ended by a byte 00, the last one maybe by the list's end.
pub fn names_of(alloc: Global, list: &[u8]) -> Result<Vec<String>, AllocError> {
    let mut names: Vec<String> = Vec::new(alloc);
    for name in list.split(|byte| *byte == 0) {
        if !name.is_empty() {
            names.push(word_of(alloc, name)?)?;
        }
    }
    Ok(names)
}
