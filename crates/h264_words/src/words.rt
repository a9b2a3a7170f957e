//! The words of the command line.
#![tactic(auto)]

use std::alloc::{AllocError, Global};
use std::env::{Env, FillError};
use std::io;
use std::io::ErrorKind;

/// Gives the words of a command line.
pub trait Words {
    ghost use Rattle.std.specs.Prelude.{◌≡◌, List, Option, None, Some, IfOk, map, string_bytes};
    ghost use Rattle.clap.specs.Words.{Text};

    /// The words, the program's name first, where they are known.
    ghost known: { Self → Option (List Text) } = { λ _. None };

    /// The words. An error where memory is wanting.
    fn words(&self, alloc: Global) -> io::Result<Vec<String>>
        ensures given { IfOk result (λ given. (words : List Text) → known self.now ≡ Some words →
            map (λ w. string_bytes w) given.items ≡ words) };
}

/// The size of the buffer in which an argument is looked for first, in bytes.
const FIRST_SIZE: usize = 256;

/// The bytes of an argument; none after the last. An error where memory is wanting.
fn argument<R: Env>(arguments: &R, alloc: Global, i: usize) -> io::Result<Option<Vec<u8>>> {
    let mut size = FIRST_SIZE;
    for _ in 0..usize::BITS {
        let mut bytes: Vec<u8> = Vec::new(alloc);
        bytes.resize(size, 0u8)?;
        match arguments.arg(i, bytes.as_mut_slice()) {
            Ok(count) => {
                bytes.truncate(count);
                return Ok(Some(bytes));
            }
            Err(FillError::NotPresent) => return Ok(None),
            Err(FillError::TooLong) => size = size.saturating_mul(2),
        }
    }
    Err(io::Error::from(ErrorKind::OutOfMemory))
}

/// The arguments as words, the program's name first. An error where memory is wanting.
pub fn words_of<R: Env>(arguments: &R, alloc: Global) -> io::Result<Vec<String>> {
    let mut words: Vec<String> = Vec::new(alloc);
    for i in 0..usize::MAX {
        let Some(bytes) = argument(arguments, alloc, i)? else {
            break;
        };
        words.push(word_of(alloc, bytes.as_slice())?)?;
    }
    Ok(words)
}

/// Bytes as a word. One that is no part of UTF-8 stands in it as U+0000 and its two hexadecimal digits: the system gives no word that has a U+0000 of its own.
/// AllocError: there is no memory for it.
pub fn word_of(alloc: Global, bytes: &[u8]) -> Result<String, AllocError> {
    let mut word = String::new(alloc);
    let mut rest = bytes;
    for _ in 0..bytes.len() {
        match str::from_utf8(rest) {
            Ok(text) => {
                word.push_str(text)?;
                break;
            }
            Err(error) => {
                let (text, odd) = rest.split_at(error.valid_up_to());
                word.push_str(str::from_utf8(text).unwrap_or(""))?;
                put_odd_byte(&mut word, odd[0])?;
                rest = &odd[1..];
            }
        }
    }
    Ok(word)
}

/// Adds a byte that is no part of UTF-8 to a word.
fn put_odd_byte(word: &mut String, byte: u8) -> Result<(), AllocError> {
    write!(word, "\0{byte:02x}")?;
    Ok(())
}

/// Whether a word has a byte that is no part of UTF-8.
pub fn has_odd_byte(word: &str) -> bool {
    word.contains('\0')
}
