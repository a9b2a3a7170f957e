//! Words that name files by lists and folders, and the plain words that stand for them.
//!
//! The plain command line takes none of these words. They are read by a command line of their own, which has the options for lists too, and are written anew
//! as words that the plain one takes: options, and after `--` each file by its name.
#![tactic(auto)]

ghost use Rattle.std.specs.Prelude.{◌≡◌, ℕ, Bool, List, [], ◌∷◌, ◌++◌, false, true, IfErr, IfNone, IfOk, IfSome, OnOk, codes, map, option_map, string_bytes};
ghost use Rattle.std.specs.Prelude.{unwrap_or};
ghost use Rattle.clap.specs.Walk.{rows_of};
ghost use Rattle.clap.specs.Words.{Text, all_of, first_of, found_of, one_of, subcommand_of, subcommand_rows_of};
ghost use Rattle.h264_words.specs.ListWords.{list_program};
ghost use Rattle.h264_words.specs.Options.{IsFlag};
ghost use Rattle.h264_words.specs.Words.{flags, program, IsRefusedBy, IsTakenBy};
ghost use Rattle.h264_command.specs.Commands.{has_fault_status};
ghost use Rattle.h264_command.specs.Lists.{texts_in, flag_words, value_words, all_values, named_by, names_given, HasFlags, HasMore, IsFront};
ghost use Rattle.h264_command.specs.Lists.{lists_files, FindsList, FindsNoList, HasList, HasListIn, IsPlainForm, IsUnread, NameByLists, NameNoList};
ghost use Rattle.h264_command.specs.declared.lists.Unlisted.TheVariants as unlisted;

use crate::command::FAULT;
use crate::more::blame;
use clap::error::ErrorKind;
use clap::{ArgMatches, Error};
use h264_lines::{Device, put_text};
use h264_words::command_line::{FLAGS, VALUES, asked, listed, takes_lists};
use h264_words::glob::is_match;
use h264_words::labels::all_labels;
use std::alloc::{AllocError, Global};
use std::io;

/// What lies below a folder.
#[derive(Drop)]
pub struct Below {
    /// The names of files, and of what can't be looked into.
    pub files: Vec<String>,
    /// The names of what is no file, such as a socket.
    pub others: Vec<String>,
}

/// Finds files that words do not name.
pub trait Lister {
    /// The names that a list has, each ended by a byte 00.
    fn listed_in(&self, list: &str) -> io::Result<Vec<String>>;

    /// What lies below a folder, in the order of the names.
    fn below(&self, folder: &str) -> io::Result<Below>;

    /// From now on, this name stands for standard input.
    fn name_input(&self, name: &str) -> io::Result<()>;
}

/// What comes of words that name files by lists.
#[derive(Drop)]
pub enum Listed {
    /// These words stand for them.
    Words(Vec<String>),
    /// They can't be followed, and standard error is told why: the exit status.
    Fault(u8),
}

/// Why lists can't be followed.
#[derive(Drop)]
enum Unlisted {
    /// There was no memory.
    Memory,
    /// A list or a folder of this name can't be read.
    Unread(String, io::Error),
    /// What is said of the words.
    Refused(&'static str),
}

impl From<AllocError> for Unlisted {
    ghost from_gives = { λ _ e. e ≡ unlisted.Memory };

    fn from(_error: AllocError) -> Unlisted {
        Unlisted::Memory
    }
}

/// The exit status of a list that can't be read.
const FAILED: u8 = 4;

/// Adds a name.
fn add(names: &mut Vec<String>, name: String) -> Result<(), Unlisted>
    ensures added { OnOk result (texts_in names.new.items ≡ texts_in names.old.items ++ string_bytes name ∷ []) }
    ensures short { IfErr result (λ e. e ≡ unlisted.Memory) }
{
    match names.push(name) {
        Ok(()) => Ok(()),
        Err(_) => Err(Unlisted::Memory),
    }
}

/// Whether the plain command line refuses words. AllocError: there is no memory to find that out.
fn is_refused(alloc: Global, words: &[String]) -> Result<bool, AllocError>
    ensures taken { IfOk result (λ refused. refused ≡ false → IsTakenBy program (map (λ w. string_bytes w) words.now)) }
    ensures refused { IfOk result (λ refused. refused ≡ true → IsRefusedBy program (map (λ w. string_bytes w) words.now)) }
{
    match asked(alloc, words) {
        Ok(_) => Ok(false),
        Err(error) => {
            if error.kind() == ErrorKind::OutOfMemory {
                return Err(AllocError);
            }
            Ok(true)
        }
    }
}

/// The name of a list or a folder that can't be read, and why.
fn unread(alloc: Global, name: &str, cause: io::Error) -> Unlisted
    ensures { IsUnread name.now result }
{
    match String::from_str(alloc, name) {
        Ok(name) => Unlisted::Unread(name, cause),
        Err(_) => Unlisted::Memory,
    }
}

/// The last part of a name, behind its last slash.
fn last_part(name: &str) -> &str
    ensures { (front : List ℕ) × (name.now ≡ front ++ result.now) }
{
    match name.rsplit_once('/') {
        Some((_, last)) => last,
        None => name,
    }
}

/// Adds what lies below a folder, and says on standard error what is left out.
fn add_below<L: Lister, E: Device>(
    alloc: Global,
    names: &mut Vec<String>,
    lister: &L,
    folder: &str,
    glob: Option<&str>,
    err: &mut E,
) -> Result<(), Unlisted>
    ensures { OnOk result (HasMore (texts_in names.old.items) (texts_in names.new.items)) }
{
    let below = match lister.below(folder) {
        Ok(below) => below,
        Err(cause) => return Err(unread(alloc, folder, cause)),
    };
    let Below { files, others } = below;
    for name in others.iter() {
        blame(
            alloc,
            err,
            name.as_str(),
            &io::Error::other("it is no file, and is left out"),
        );
    }
    for name in files {
        let wanted = match glob {
            Some(glob) => is_match(glob, last_part(name.as_str())),
            None => true,
        };
        if wanted {
            add(names, name)?;
        }
    }
    Ok(())
}

/// Adds the names that a list has. A name that is that of standard input is a file's here.
fn add_listed<L: Lister>(
    alloc: Global,
    names: &mut Vec<String>,
    lister: &L,
    list: &str,
) -> Result<(), Unlisted>
    ensures { OnOk result (HasMore (texts_in names.old.items) (texts_in names.new.items)) }
{
    let listed = match lister.listed_in(list) {
        Ok(listed) => listed,
        Err(cause) => return Err(unread(alloc, list, cause)),
    };
    for name in listed {
        if name.as_str() == "-" {
            add(names, String::from_str(alloc, "./-")?)?;
        } else {
            add(names, name)?;
        }
    }
    Ok(())
}

/// How many of these names are that of standard input, as far as that is counted.
fn count_inputs(given: &[&str]) -> usize {
    let mut inputs = 0usize;
    for name in given.iter() {
        if *name == "-" {
            inputs = inputs.saturating_add(1);
        }
    }
    inputs
}

/// The name of a file that words give. Where standard input has a name of its own, that stands for it, and the lister is told it.
fn given_name<'a, L: Lister>(
    alloc: Global,
    lister: &L,
    input: Option<&'a str>,
    name: &'a str,
) -> Result<&'a str, Unlisted>
    ensures { IfOk result (λ given. given.now ≡ named_by (option_map (λ s. s.now) input.entry) name.entry.now) }
{
    match input {
        Some(input) if name == "-" => match lister.name_input(input) {
            Ok(()) => Ok(input),
            Err(cause) => Err(unread(alloc, input, cause)),
        },
        _ => Ok(name),
    }
}

/// Adds these files. Where standard input has a name of its own, that stands for it.
fn add_names<L: Lister>(
    alloc: Global,
    names: &mut Vec<String>,
    lister: &L,
    input: Option<&str>,
    given: &[&str],
) -> Result<(), Unlisted>
    ensures { OnOk result (texts_in names.new.items ≡ texts_in names.old.items
        ++ map (λ name. named_by (option_map (λ s. s.now) input.entry) name.now) given.now) }
{
    for name in given.iter() {
        let name = given_name(alloc, lister, input, name)?;
        add(names, String::from_str(alloc, name)?)?;
    }
    Ok(())
}

/// Adds the files that words name one by one. Where standard input has a name of its own, that stands for it.
fn add_given<L: Lister>(
    alloc: Global,
    names: &mut Vec<String>,
    lister: &L,
    found: &ArgMatches<'_>,
) -> Result<(), Unlisted>
    ensures { OnOk result (texts_in names.new.items ≡ texts_in names.old.items ++ names_given (rows_of (found_of found.now))) }
{
    let given = found.get_strs("FILE").unwrap_or(&[]);
    let input = found.get_str("name");
    if input.is_some() && count_inputs(given) != 1 {
        return Err(Unlisted::Refused(
            "h264v: --name names standard input, which is given by one -\n",
        ));
    }
    add_names(alloc, names, lister, input, given)
}

/// Adds the names of all files that words name.
fn add_files<L: Lister, E: Device>(
    alloc: Global,
    names: &mut Vec<String>,
    lister: &L,
    matches: (&str, &ArgMatches<'_>),
    err: &mut E,
) -> Result<(), Unlisted>
    ensures { OnOk result (HasMore (texts_in names.old.items ++ names_given (rows_of (found_of matches.entry.1.now))) (texts_in names.new.items)) }
{
    let (subcommand, found) = matches;
    let before = names.len();
    add_given(alloc, names, lister, found)?;
    if !takes_lists(subcommand) {
        return Ok(());
    }
    for list in found.get_strs("files0-from").unwrap_or(&[]).iter() {
        add_listed(alloc, names, lister, list)?;
    }
    let glob = found.get_str("glob");
    let folders = found.get_strs("recursive").unwrap_or(&[]);
    if glob.is_some() && folders.is_empty() {
        return Err(Unlisted::Refused("h264v: --glob belongs to --recursive\n"));
    }
    for folder in folders.iter() {
        add_below(alloc, names, lister, folder, glob, err)?;
    }
    if names.len() == before {
        return Err(Unlisted::Refused("h264v: the lists name no file\n"));
    }
    Ok(())
}

/// Adds these texts as words.
fn add_texts(alloc: Global, words: &mut Vec<String>, texts: &[&str]) -> Result<(), AllocError>
    ensures { OnOk result (texts_in words.new.items ≡ texts_in words.old.items ++ map (λ t. t.now) texts.now) }
{
    for text in texts.iter() {
        words.push(String::from_str(alloc, text)?)?;
    }
    Ok(())
}

/// Adds the labels that words name: those that are given, and all of them beside that.
fn add_labels(
    alloc: Global,
    names: &mut Vec<String>,
    found: &ArgMatches<'_>,
) -> Result<(), AllocError>
    ensures { OnOk result (HasMore (texts_in names.old.items ++ unwrap_or (all_of (codes "FILE") (rows_of (found_of found.now))) [])
        (texts_in names.new.items)) }
{
    add_texts(alloc, names, found.get_strs("FILE").unwrap_or(&[]))?;
    add_texts(alloc, names, all_labels(alloc)?.as_slice())
}

/// Whether words name files by lists or folders, or have a pattern of names.
fn lists_files(found: &ArgMatches<'_>) -> bool
    ensures { result ≡ lists_files (rows_of (found_of found.now)) }
{
    if found.get_strs("files0-from").is_some() {
        return true;
    }
    if found.get_strs("recursive").is_some() {
        return true;
    }
    found.get_str("glob").is_some()
}

/// Whether words name files by lists, standard input by a name of its own, or all labels.
fn has_list(name: &str, found: &ArgMatches<'_>) -> bool
    ensures { HasList name.now (rows_of (found_of found.now)) result }
{
    if name == "explain" {
        return found.get_flag("all");
    }
    if found.get_str("name").is_some() {
        return true;
    }
    takes_lists(name) && lists_files(found)
}

/// Adds the word of an option without a value, where it was found.
fn add_flag(
    alloc: Global,
    words: &mut Vec<String>,
    found: &ArgMatches<'_>,
    option: &str,
) -> Result<(), AllocError>
    ensures { OnOk result ((has : Bool) × IsFlag (one_of option.now (rows_of (found_of found.now))) has
        × (texts_in words.new.items ≡ texts_in words.old.items ++ flag_words option.now has)) }
{
    if found.get_flag(option) {
        words.push(format!(in alloc; "--{option}")?)?;
    }
    Ok(())
}

/// Adds the words of the options without a value that were found.
fn add_flags(
    alloc: Global,
    words: &mut Vec<String>,
    found: &ArgMatches<'_>,
) -> Result<(), AllocError>
    ensures { OnOk result (HasFlags (rows_of (found_of found.now)) flags (texts_in words.old.items) (texts_in words.new.items)) }
{
    for (option, ..) in FLAGS {
        add_flag(alloc, words, found, option)?;
    }
    Ok(())
}

/// Adds the word of an option with a value, where it was found.
fn add_value(
    alloc: Global,
    words: &mut Vec<String>,
    found: &ArgMatches<'_>,
    option: &str,
) -> Result<(), AllocError>
    ensures { OnOk result (texts_in words.new.items ≡ texts_in words.old.items
        ++ value_words option.now (first_of option.now (rows_of (found_of found.now)))) }
{
    if let Some(value) = found.get_str(option) {
        words.push(format!(in alloc; "--{option}={value}")?)?;
    }
    Ok(())
}

/// Adds the words of the options with a value that were found.
fn add_values(
    alloc: Global,
    words: &mut Vec<String>,
    found: &ArgMatches<'_>,
) -> Result<(), AllocError>
    ensures { OnOk result (texts_in words.new.items ≡ texts_in words.old.items ++ all_values (rows_of (found_of found.now))) }
{
    for (option, ..) in VALUES {
        add_value(alloc, words, found, option)?;
    }
    Ok(())
}

/// Adds the plain words of a subcommand with these options, behind which the names of its files follow.
fn add_front(
    alloc: Global,
    words: &mut Vec<String>,
    subcommand: &str,
    found: &ArgMatches<'_>,
) -> Result<(), AllocError>
    ensures { OnOk result ((front : List Text) × IsFront subcommand.now (rows_of (found_of found.now)) front
        × (texts_in words.new.items ≡ texts_in words.old.items ++ front)) }
{
    words.push(String::from_str(alloc, "h264v")?)?;
    words.push(String::from_str(alloc, subcommand)?)?;
    add_flags(alloc, words, found)?;
    add_values(alloc, words, found)?;
    words.push(String::from_str(alloc, "--")?)?;
    Ok(())
}

/// Whether the matches of words have a list.
fn name_by_lists(matches: &ArgMatches<'_>) -> bool
    ensures { HasListIn (subcommand_rows_of matches.now) result }
{
    match matches.subcommand() {
        Some((name, found)) => has_list(name, found),
        None => false,
    }
}

/// What words say that have a list. None where they have none. AllocError: there is no memory to find that out.
fn list_in<'a>(alloc: Global, words: &'a [String]) -> Result<Option<ArgMatches<'a>>, AllocError>
    ensures some { IfOk result (λ found. IfSome found (λ m.
        (subcommand_rows_of m ≡ subcommand_of list_program (map (λ w. string_bytes w) words.entry.now))
        × FindsList (map (λ w. string_bytes w) words.entry.now))) }
    ensures none { IfOk result (λ found. IfNone found (FindsNoList (map (λ w. string_bytes w) words.entry.now))) }
{
    match listed(alloc, words) {
        Ok(matches) => {
            if name_by_lists(&matches) {
                Ok(Some(matches))
            } else {
                Ok(None)
            }
        }
        Err(error) => {
            if error.kind() == ErrorKind::OutOfMemory {
                Err(AllocError)
            } else {
                Ok(None)
            }
        }
    }
}

/// Adds the plain words that stand for those of a subcommand with a list.
fn follow<L: Lister, E: Device>(
    alloc: Global,
    words: &mut Vec<String>,
    matches: (&str, &ArgMatches<'_>),
    lister: &L,
    err: &mut E,
) -> Result<(), Unlisted>
    ensures plain { OnOk result ((front : List Text) × IsFront matches.entry.0.now (rows_of (found_of matches.entry.1.now)) front
        × HasMore (texts_in words.old.items ++ front) (texts_in words.new.items)) }
    // Labels are known, so that only memory may be wanting for them.
    ensures labels { matches.entry.0.now ≡ codes "explain" → IfErr result (λ e. e ≡ unlisted.Memory) }
{
    let (name, found) = matches;
    add_front(alloc, words, name, found)?;
    if name == "explain" {
        Ok(add_labels(alloc, words, found)?)
    } else {
        add_files(alloc, words, lister, matches, err)
    }
}

/// What comes of words that name files by lists, the program's name first. None exactly where they name none so: where the plain command line takes them, or
/// that with lists does not, or finds no list in them. AllocError: there is no memory to find that out, or to follow the lists.
pub fn listed_words<L: Lister, E: Device>(
    alloc: Global,
    words: &[String],
    lister: &L,
    err: &mut E,
) -> Result<Option<Listed>, AllocError>
    ensures listed { IfOk result (λ found. IfSome found (λ _. NameByLists (map (λ w. string_bytes w) words.now))) }
    ensures unlisted { IfOk result (λ found. IfNone found (NameNoList (map (λ w. string_bytes w) words.now))) }
    ensures untold { IfOk result (λ found. IfNone found (err.new ≡ err.old)) }
    ensures status { IfOk result (λ found. IfSome found (λ listed. has_fault_status listed ≡ true)) }
    ensures plain { IfOk result (λ found. IfSome found (λ listed. IsPlainForm (map (λ w. string_bytes w) words.now) listed)) }
{
    if !is_refused(alloc, words)? {
        return Ok(None);
    }
    let Some(matches) = list_in(alloc, words)? else {
        return Ok(None);
    };
    let Some(subcommand) = matches.subcommand() else {
        return Ok(None);
    };
    let mut plain: Vec<String> = Vec::new(alloc);
    match follow(alloc, &mut plain, subcommand, lister, err) {
        Ok(()) => Ok(Some(Listed::Words(plain))),
        Err(Unlisted::Memory) => Err(AllocError),
        Err(Unlisted::Unread(name, cause)) => {
            blame(alloc, err, name.as_str(), &cause);
            Ok(Some(Listed::Fault(FAILED)))
        }
        Err(Unlisted::Refused(text)) => {
            let _ = put_text(err, text);
            Ok(Some(Listed::Fault(FAULT)))
        }
    }
}
