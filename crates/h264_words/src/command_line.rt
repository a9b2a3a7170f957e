//! What the words of the command line ask for.
//!
//! `asked` takes the words, the program's name first, and gives the task, the files' names and the options, or an error with the text that says why they
//! ask for nothing. It promises what `specs/Words.antt` defines on clap's own definition of a command line: that a request is the subcommand and the first
//! FILE that the words name, that the files and options which it has are those of the words, and that words which the command line takes are refused for
//! want of memory alone.
#![tactic(auto)]

ghost use Rattle.std.specs.Prelude.{◌≡◌, ◌↔◌, true, false, fold, length, map, None, Some, IfOk, IfErr, IfSome, option_map, string_bytes, codes};
ghost use Rattle.clap.specs.Words.{app_of, found_of, takes, kind_of, subcommand_of, subcommand_rows_of, with_rule};
ghost use Rattle.clap.specs.Walk.{rows_of};
ghost use Rattle.clap.specs.declared.error.kind.ErrorKind.TheVariants as kinds;
ghost use Rattle.clap.specs.declared.builder.command.Command.TheViews.{out-Command as fields_of};
ghost use Rattle.h264_words.specs.Words.{files_rule, flag_rule, value_rule, with_flags, with_values, file_app, with_file, bare, program, name_of, IsTakenBy};
ghost use Rattle.h264_words.specs.Words.{is_judging, found_by, IsRequest, IsTarget, AsksFor, all_in, value_in, values_in};
ghost use Rattle.h264_base.specs.declared.mode.Target.{Target as TargetView};
ghost use Rattle.h264_words.specs.ListWords.{lettered_rule, list_app, list_program, list_rule, list_rules, takes_lists, with_list_file};
ghost use Rattle.h264_words.specs.Options.{asks_further, flag_in, AsksForMore, HasNoOption, HasOption, IsFlag, IsPlain};
ghost use Rattle.h264_words.specs.declared.command_line.Task.{Task as TaskView};

use clap::{Arg, ArgAction, ArgMatches, Command, Error};
use h264_base::Target;
use std::alloc::{AllocError, Global};

/// What the program does with a file.
#[derive(Clone, Copy, PartialEq, Eq)]
pub enum Task {
    /// Judges it whole.
    Check,
    /// Judges its units and parameter sets, with a line for each unit.
    Units,
    /// Judges its slice headers too, with a line for each slice.
    Headers,
    /// Judges it whole, with a line for each frame.
    Frames,
    /// Judges it whole, and writes each frame.
    Decode,
    /// Judges it whole, with a line for each unit, slice and syntax element.
    Elements,
    /// Judges it whole, and tells its profile, level, size, rate, pictures and macroblocks.
    Info,
    /// Judges it whole, and makes a page of what was found.
    Report,
    /// Tells what a rule says; its FILE is the rule's label.
    Explain,
}

impl Task {
    /// Whether it judges a stream with lines or frames as its answer.
    pub fn is_judging(self) -> bool
        ensures { result ≡ is_judging self }
    {
        match self {
            Task::Check => true,
            Task::Units => true,
            Task::Headers => true,
            Task::Frames => true,
            Task::Decode => true,
            Task::Elements => true,
            Task::Info => false,
            Task::Report => false,
            Task::Explain => false,
        }
    }

    /// Whether it judges by the further rules where that is asked.
    pub fn has_further_rules(self) -> bool
        ensures { result ≡ asks_further self true }
    {
        match self {
            Task::Check => true,
            Task::Report => true,
            Task::Units => false,
            Task::Headers => false,
            Task::Frames => false,
            Task::Decode => false,
            Task::Elements => false,
            Task::Info => false,
            Task::Explain => false,
        }
    }
}

/// A task, and the name of its first file.
#[derive(Clone, Copy)]
pub struct Request<'a> {
    pub task: Task,
    pub file: &'a str,
}

/// What the words ask for: a task with its first file, and what the words say besides.
#[derive(Drop)]
pub struct Wanted<'a> {
    pub request: Request<'a>,
    pub matches: ArgMatches<'a>,
}

impl<'a> Wanted<'a> {
    /// What the words say of the task.
    fn found(&self) -> Option<&ArgMatches<'a>>
        ensures { option_map (λ m. rows_of (found_of m.now)) result ≡ option_map (λ p. p.1) (subcommand_rows_of self.now.matches) }
    {
        match self.matches.subcommand() {
            Some((_, found)) => Some(found),
            None => None,
        }
    }

    /// Whether the words have this option, which takes no value, such as `json`.
    pub fn has(&self, option: &str) -> bool
        ensures { IsFlag (flag_in (subcommand_rows_of self.now.matches) option.now) result }
    {
        match self.found() {
            Some(found) => found.get_flag(option),
            None => false,
        }
    }

    /// The value of this option, such as `output`, where the words have it.
    pub fn value(&self, option: &str) -> Option<&'a str>
        ensures { option_map (λ v. v.now) result ≡ value_in (subcommand_rows_of self.now.matches) option.now }
    {
        match self.found() {
            Some(found) => found.get_str(option),
            None => None,
        }
    }

    /// The names of the files, in the order of the words; none where they name none.
    pub fn files(&self) -> Option<&[&'a str]>
        ensures { option_map (λ s. map (λ v. v.now) s.now) result ≡ all_in (subcommand_rows_of self.now.matches) (codes "FILE") }
    {
        match self.found() {
            Some(found) => found.get_strs("FILE"),
            None => None,
        }
    }

    /// Whether the words name one file.
    fn has_one_file(&self) -> bool
        ensures { result ≡ true ↔ length (values_in (subcommand_rows_of self.now.matches) (codes "FILE")) ≡ 1 }
    {
        match self.files() {
            Some(files) => files.len() == 1,
            None => false,
        }
    }

    /// Whether the words have an option beside `--target`.
    fn has_option(&self) -> bool
        ensures none { result ≡ false → HasNoOption (subcommand_rows_of self.now.matches) }
        ensures some { result ≡ true → HasOption (subcommand_rows_of self.now.matches) }
    {
        self.has("explain")
            || self.has("json")
            || self.has("quiet")
            || self.has("progress")
            || self.has("y4m")
            || self.has("strict")
            || self.has("brief")
            || self.value("output").is_some()
            || self.value("picture").is_some()
            || self.value("mb").is_some()
    }

    /// The target for which the words ask for a judgement of one FILE, which is not standard input, where they have no other option. None: they ask for
    /// more than that, or they name no target.
    pub fn plain_target(&self) -> Option<Target>
        ensures target { IfSome result (IsTarget (value_in (subcommand_rows_of self.now.matches) (codes "target"))) }
        ensures judging { IfSome result (λ _. is_judging self.now.request.task ≡ true) }
        ensures plain { IfSome result (λ _. IsPlain (subcommand_rows_of self.now.matches) self.now.request.file.now) }
        ensures more { result ≡ None → is_judging self.now.request.task ≡ true → (target : TargetView) →
            IsTarget (value_in (subcommand_rows_of self.now.matches) (codes "target")) target →
            AsksForMore (subcommand_rows_of self.now.matches) self.now.request.file.now }
    {
        let is_plain = self.request.task.is_judging()
            && self.has_one_file()
            && self.request.file != "-"
            && !self.has_option();
        if is_plain {
            target_of(self.value("target"))
        } else {
            None
        }
    }
}

/// The target of this name, which is Constrained Baseline where none is given. None: no target has the name.
pub fn target_of(name: Option<&str>) -> Option<Target>
    ensures target { IfSome result (IsTarget (option_map (λ n. n.now) name.entry)) }
    ensures none { result ≡ None → (target : TargetView) → IsTarget (option_map (λ n. n.now) name.entry) target → ⊥ }
{
    let Some(text) = name else {
        return Some(Target::Baseline);
    };
    if text == "baseline" {
        return Some(Target::Baseline);
    }
    if text == "main-ip" {
        return Some(Target::MainIP);
    }
    None
}

/// The subcommands: the name of each, and what its help says.
const SUBCOMMANDS: [(&str, &str); 9] = [
    (
        "check",
        "Says whether a stream is legal: yes, no with the first rule that it breaks and the bit where, or outside",
    ),
    (
        "units",
        "Prints a line for each unit, and judges byte stream, units and parameter sets",
    ),
    (
        "headers",
        "Prints a line for each slice, and judges slice headers too",
    ),
    (
        "frames",
        "Prints a line for each frame in output order, with its size and the MD5 of its samples",
    ),
    (
        "decode",
        "Writes each frame in output order as planar YUV 4:2:0, and its verdict to standard error",
    ),
    (
        "elements",
        "Prints a line for each unit, slice and syntax element, with the element's bit and value",
    ),
    (
        "info",
        "Tells profile, level, size, frame rate, pictures and macroblocks of a stream",
    ),
    (
        "report",
        "Writes an HTML page on a stream: verdict, parameter sets, a plot of its pictures, and frames",
    ),
    (
        "explain",
        "Tells what a rule says, by its label, and what usually breaks it",
    ),
];

/// What the help says of FILE.
const FILE_HELP: &str =
    "An H.264 byte stream (Annex B), as cameras and encoders write it with the ending .264 or .h264; - for standard input";

/// What the help says of LABEL.
const LABEL_HELP: &str = "The label of a rule, as a no prints it, such as VectorRange";

/// The subcommands that judge a stream with lines or frames as their answer.
const JUDGING: &[&str] = &["check", "units", "headers", "frames", "decode", "elements"];

/// The subcommands that judge a stream.
const OF_STREAMS: &[&str] = &[
    "check", "units", "headers", "frames", "decode", "elements", "info", "report",
];

/// All subcommands.
const ALL: &[&str] = &[
    "check", "units", "headers", "frames", "decode", "elements", "info", "report", "explain",
];

/// Whether a subcommand is one of these, whose help shows an option. Each option is known to all subcommands; one that says nothing to a subcommand is refused
/// later, with a text of its own.
fn is_one_of(name: &str, subcommands: &[&str]) -> bool {
    for it in subcommands.iter() {
        if *it == name {
            return true;
        }
    }
    false
}

/// The files of a subcommand, of which there is at least one where they are required.
fn with_files<'a>(
    alloc: Global,
    command: Command<'a>,
    name: &'a str,
    required: bool,
) -> Result<Command<'a>, AllocError>
    requires local { (fields_of command).has_globals ≡ false }
    ensures app { IfOk result (λ c. app_of c ≡ with_rule (app_of command.entry) (record files_rule { required = required })) }
    ensures local { IfOk result (λ c. (fields_of c).has_globals ≡ false) }
{
    let (shown, help) = if name == "explain" {
        ("LABEL", LABEL_HELP)
    } else {
        ("FILE", FILE_HELP)
    };
    let files = Arg::new(alloc, "FILE")
        .required(required)
        .num_args(1..)
        .value_name(shown)
        .help(help);
    command.arg(files)
}

/// The command with one more option, which takes no value.
fn with_flag<'a>(
    alloc: Global,
    command: Command<'a>,
    option: &'a str,
    about: &'a str,
    hidden: bool,
) -> Result<Command<'a>, AllocError>
    requires local { (fields_of command).has_globals ≡ false }
    ensures app { IfOk result (λ c. app_of c ≡ with_rule (app_of command.entry) (flag_rule option.now)) }
    ensures local { IfOk result (λ c. (fields_of c).has_globals ≡ false) }
{
    let flag = Arg::new(alloc, option)
        .long(option)
        .action(ArgAction::SetTrue)
        .help(about)
        .hide(hidden);
    command.arg(flag)
}

/// The command with one more option, which takes a value.
fn with_value<'a>(
    alloc: Global,
    command: Command<'a>,
    option: &'a str,
    short: char,
    about: (&'a str, &'a str),
    hidden: bool,
) -> Result<Command<'a>, AllocError>
    requires local { (fields_of command).has_globals ≡ false }
    ensures app { IfOk result (λ c. app_of c ≡ with_rule (app_of command.entry) (value_rule option.now short)) }
    ensures local { IfOk result (λ c. (fields_of c).has_globals ≡ false) }
{
    let value = Arg::new(alloc, option)
        .long(option)
        .short(short)
        .action(ArgAction::Set)
        .value_name(about.0)
        .help(about.1)
        .hide(hidden);
    command.arg(value)
}

/// The options that take no value: the name of each, what its help says, and the subcommands whose help shows it.
pub const FLAGS: [(&str, &str, &[&str]); 7] = [
    (
        "explain",
        "After a no or an outside, says where it is, what was found and what is allowed",
        JUDGING,
    ),
    ("json", "Prints one JSON object a line", ALL),
    (
        "quiet",
        "Prints nothing; the exit status alone answers",
        OF_STREAMS,
    ),
    (
        "progress",
        "Tells bytes, pictures and frames a second on standard error",
        OF_STREAMS,
    ),
    (
        "y4m",
        "Writes YUV4MPEG2, which players open, in the place of bare samples",
        &["decode"],
    ),
    (
        "strict",
        "Judges further rules of H.264 beside the verdict, and says which are broken",
        &["check", "report"],
    ),
    (
        "brief",
        "Leaves out the last elements before a no",
        &["check"],
    ),
];

/// The options that take a value: the name of each, its letter, what the help says of its value and of it, and the subcommands whose help shows it.
pub const VALUES: [(&str, char, (&str, &str), &[&str]); 4] = [
    (
        "output",
        'o',
        (
            "OUTPUT",
            "Writes to this file in the place of standard output",
        ),
        &["decode", "report"],
    ),
    (
        "picture",
        'p',
        (
            "NUMBER",
            "Only the picture of this number in decoding order, from 0",
        ),
        &["elements"],
    ),
    (
        "mb",
        'm',
        ("ADDRESS", "Only the macroblock of this address"),
        &["elements"],
    ),
    (
        "target",
        't',
        (
            "TARGET",
            "What the stream has to suit: baseline, or main-ip for Main's progressive CAVLC streams with weighted prediction",
        ),
        OF_STREAMS,
    ),
];

/// The command with the options that take no value.
fn with_flags<'a>(
    alloc: Global,
    command: Command<'a>,
    name: &'a str,
) -> Result<Command<'a>, AllocError>
    requires local { (fields_of command).has_globals ≡ false }
    ensures app { IfOk result (λ c. app_of c ≡ with_flags (app_of command.entry)) }
    ensures local { IfOk result (λ c. (fields_of c).has_globals ≡ false) }
{
    let mut all = command;
    for (option, about, shown) in FLAGS {
        all = with_flag(alloc, all, option, about, !is_one_of(name, shown))?;
    }
    Ok(all)
}

/// The command with the options that take a value.
fn with_values<'a>(
    alloc: Global,
    command: Command<'a>,
    name: &'a str,
) -> Result<Command<'a>, AllocError>
    requires local { (fields_of command).has_globals ≡ false }
    ensures app { IfOk result (λ c. app_of c ≡ with_values (app_of command.entry)) }
    ensures local { IfOk result (λ c. (fields_of c).has_globals ≡ false) }
{
    let mut all = command;
    for (option, short, about, shown) in VALUES {
        all = with_value(alloc, all, option, short, about, !is_one_of(name, shown))?;
    }
    Ok(all)
}

/// What the help says of `--files0-from` and its value.
const LIST_HELP: (&str, &str) = (
    "LIST",
    "Takes the names of files from this file too, each ended by a byte 00, as find -print0 writes them",
);

/// What the help says of `--recursive` and its value.
const FOLDER_HELP: (&str, &str) = ("FOLDER", "Takes each file below this folder too");

/// What the help says of `--glob` and its value.
const GLOB_HELP: (&str, &str) = (
    "PATTERN",
    "Of the folders only files of such a name: * stands for any characters, ? for one",
);

/// What the help says of `--name` and its value.
const NAME_HELP: (&str, &str) = (
    "TEXT",
    "The name that standard input has in lines and objects",
);

/// What the help says of `--all`.
const ALL_HELP: &str = "Tells all labels";

/// Whether a subcommand takes several files, and so lists of them.
pub fn takes_lists(name: &str) -> bool
    ensures { result ≡ takes_lists name.now }
{
    name != "decode" && name != "report" && name != "explain"
}

/// The command with one more option, which takes a value and has no letter.
fn with_list<'a>(
    alloc: Global,
    command: Command<'a>,
    option: &'a str,
    action: ArgAction,
    about: (&'a str, &'a str),
) -> Result<Command<'a>, AllocError>
    requires local { (fields_of command).has_globals ≡ false }
    ensures app { IfOk result (λ c. app_of c ≡ with_rule (app_of command.entry) (list_rule option.now action)) }
    ensures local { IfOk result (λ c. (fields_of c).has_globals ≡ false) }
{
    let list = Arg::new(alloc, option)
        .long(option)
        .action(action)
        .value_name(about.0)
        .help(about.1);
    command.arg(list)
}

/// The command with one more option, which takes a value, has a letter and may come several times.
fn with_lettered_list<'a>(
    alloc: Global,
    command: Command<'a>,
    option: &'a str,
    letter: char,
    about: (&'a str, &'a str),
) -> Result<Command<'a>, AllocError>
    requires local { (fields_of command).has_globals ≡ false }
    ensures app { IfOk result (λ c. app_of c ≡ with_rule (app_of command.entry) (lettered_rule option.now letter)) }
    ensures local { IfOk result (λ c. (fields_of c).has_globals ≡ false) }
{
    let list = Arg::new(alloc, option)
        .long(option)
        .short(letter)
        .action(ArgAction::Append)
        .value_name(about.0)
        .help(about.1);
    command.arg(list)
}

/// The command with the options that name files by lists.
fn with_lists<'a>(
    alloc: Global,
    command: Command<'a>,
    name: &'a str,
) -> Result<Command<'a>, AllocError>
    requires local { (fields_of command).has_globals ≡ false }
    ensures app { IfOk result (λ c. app_of c ≡ fold with_rule (app_of command.entry) (list_rules name.now)) }
    ensures local { IfOk result (λ c. (fields_of c).has_globals ≡ false) }
{
    if name == "explain" {
        return with_flag(alloc, command, "all", ALL_HELP, false);
    }
    let named = with_list(alloc, command, "name", ArgAction::Set, NAME_HELP)?;
    if !takes_lists(name) {
        return Ok(named);
    }
    let listed = with_list(alloc, named, "files0-from", ArgAction::Append, LIST_HELP)?;
    let below = with_lettered_list(alloc, listed, "recursive", 'r', FOLDER_HELP)?;
    with_list(alloc, below, "glob", ArgAction::Set, GLOB_HELP)
}

/// A subcommand that takes files, options and lists of files; its help says `about`.
fn list_command<'a>(alloc: Global, name: &'a str, about: &'a str) -> Result<Command<'a>, AllocError>
    ensures app { IfOk result (λ c. app_of c ≡ list_app name.now) }
    ensures local { IfOk result (λ c. (fields_of c).has_globals ≡ false) }
{
    let command = with_files(alloc, Command::new(alloc, name).about(about), name, false)?;
    let command = with_flags(alloc, command, name)?;
    let command = with_values(alloc, command, name)?;
    with_lists(alloc, command, name)
}

/// A subcommand that takes one FILE or more, and the options; its help says `about`.
fn file_command<'a>(alloc: Global, name: &'a str, about: &'a str) -> Result<Command<'a>, AllocError>
    ensures app { IfOk result (λ c. app_of c ≡ file_app name.now) }
    ensures local { IfOk result (λ c. (fields_of c).has_globals ≡ false) }
{
    let command = with_files(alloc, Command::new(alloc, name).about(about), name, true)?;
    let command = with_flags(alloc, command, name)?;
    with_values(alloc, command, name)
}

/// The command with one more subcommand.
fn with_file<'a>(
    alloc: Global,
    command: Command<'a>,
    name: &'a str,
    about: &'a str,
) -> Result<Command<'a>, AllocError>
    requires local { (fields_of command).has_globals ≡ false }
    ensures app { IfOk result (λ c. app_of c ≡ with_file (app_of command.entry) name.now) }
    ensures local { IfOk result (λ c. (fields_of c).has_globals ≡ false) }
{
    let added = file_command(alloc, name, about)?;
    command.subcommand(added)
}

/// The program's own command, without subcommands.
fn bare<'a>(alloc: Global) -> Command<'a>
    ensures app { app_of result ≡ bare }
    ensures local { (fields_of result).has_globals ≡ false }
{
    Command::new(alloc, "h264v")
        .about("Judges H.264 streams of the Constrained Baseline profile, and decodes them")
        .version("0.1.0")
        .subcommand_required(true)
        .arg_required_else_help(true)
}

/// The program's command line.
fn program<'a>(alloc: Global) -> Result<Command<'a>, AllocError>
    ensures { IfOk result (λ c. app_of c ≡ program) }
{
    let mut command = bare(alloc);
    for (name, about) in SUBCOMMANDS {
        command = with_file(alloc, command, name, about)?;
    }
    Ok(command)
}

/// The task of a subcommand's name; none for another word.
fn task_of(name: &str) -> Option<Task>
    ensures task { IfSome result (λ t. name_of t ≡ name.now) }
    ensures none { result ≡ None → (t : TaskView) → name_of t ≡ name.now → ⊥ }
{
    if name == "check" {
        Some(Task::Check)
    } else if name == "units" {
        Some(Task::Units)
    } else if name == "headers" {
        Some(Task::Headers)
    } else if name == "frames" {
        Some(Task::Frames)
    } else if name == "decode" {
        Some(Task::Decode)
    } else if name == "elements" {
        Some(Task::Elements)
    } else if name == "info" {
        Some(Task::Info)
    } else if name == "report" {
        Some(Task::Report)
    } else if name == "explain" {
        Some(Task::Explain)
    } else {
        None
    }
}

/// The task and the file that the matches of a command line name; none where they name no task with a FILE.
fn request_of<'a>(matches: &ArgMatches<'a>) -> Option<Request<'a>>
    ensures { IsRequest (found_by matches.now) result }
{
    let (name, found) = matches.subcommand()?;
    let task = task_of(name)?;
    let file = found.get_str("FILE")?;
    Some(Request { task, file })
}

/// What the words ask for, the program's name first among them.
///
/// An error has the text that says why they ask for nothing, among them a request for help or the version; or memory was wanting for it.
pub fn asked<'a>(alloc: Global, words: &'a [String]) -> Result<Option<Wanted<'a>>, Error>
    ensures words { IfOk result (λ found. AsksFor (map (λ w. string_bytes w) words.entry.now) (option_map (λ a. a.request) found)) }
    // The matches are clap's of these words.
    ensures matches { IfOk result (λ found. IfSome found (λ a. subcommand_rows_of a.matches ≡
        subcommand_of program (map (λ w. string_bytes w) words.entry.now))) }
    ensures refused { IfErr result (λ e. takes program (map (λ w. string_bytes w) words.entry.now) ≡ true → kind_of e ≡ kinds.OutOfMemory) }
    // The command line takes the words of a request, and refuses others alone.
    ensures taken { IfOk result (λ _. IsTakenBy program (map (λ w. string_bytes w) words.entry.now)) }
    ensures untaken { IfErr result (λ e. IsTakenBy program (map (λ w. string_bytes w) words.entry.now) → kind_of e ≡ kinds.OutOfMemory) }
{
    let command = program(alloc)?;
    let matches = command.try_get_matches_from(words)?;
    match request_of(&matches) {
        Some(request) => Ok(Some(Wanted { request, matches })),
        None => Ok(None),
    }
}

/// The command with one more subcommand, which takes lists of files.
fn with_list_file<'a>(
    alloc: Global,
    command: Command<'a>,
    name: &'a str,
    about: &'a str,
) -> Result<Command<'a>, AllocError>
    requires local { (fields_of command).has_globals ≡ false }
    ensures app { IfOk result (λ c. app_of c ≡ with_list_file (app_of command.entry) name.now) }
    ensures local { IfOk result (λ c. (fields_of c).has_globals ≡ false) }
{
    let added = list_command(alloc, name, about)?;
    command.subcommand(added)
}

/// The command line with lists of files.
fn list_program<'a>(alloc: Global) -> Result<Command<'a>, AllocError>
    ensures { IfOk result (λ c. app_of c ≡ list_program) }
{
    let mut command = bare(alloc);
    for (name, about) in SUBCOMMANDS {
        command = with_list_file(alloc, command, name, about)?;
    }
    Ok(command)
}

/// What the words say to the command line with lists of files, the program's name first among them. It takes what the plain one takes, words without a FILE,
/// and the options that name files by lists.
///
/// An error has the text that says why it does not take them, or memory was wanting for it.
pub fn listed<'a>(alloc: Global, words: &'a [String]) -> Result<ArgMatches<'a>, Error>
    ensures taken { IfOk result (λ _. IsTakenBy list_program (map (λ w. string_bytes w) words.entry.now)) }
    // The matches are clap's of these words.
    ensures matches { IfOk result (λ m. subcommand_rows_of m ≡ subcommand_of list_program (map (λ w. string_bytes w) words.entry.now)) }
    ensures refused { IfErr result (λ e. IsTakenBy list_program (map (λ w. string_bytes w) words.entry.now) → kind_of e ≡ kinds.OutOfMemory) }
{
    let command = list_program(alloc)?;
    command.try_get_matches_from(words)
}
