//! The options of a command line, and which of them go together.
#![tactic(auto)]

ghost use Rattle.std.specs.Prelude.{◌≡◌, ◌<◌, ◌↔◌, true, None, IfOk, IfErr, IsSome, IfSome, map, option_map, codes};
ghost use Rattle.clap.specs.Words.{subcommand_rows_of};
ghost use Rattle.h264_words.specs.Options.{asks_for_survey, AreOptions, AreWellUsed, IsClash, IsMisplaced, IsNoise, IsNoNumber, IsNumber};
ghost use Rattle.h264_words.specs.Options.{IsRefused, IsUnreadable, names_standard_output, output_file, times};
ghost use Rattle.h264_words.specs.Words.{Given, value_in};
ghost use Rattle.h264_words.specs.declared.refusal.Clash.{Clash as ClashView};
ghost use Rattle.h264_words.specs.declared.refusal.Misplaced.{Misplaced as MisplacedView};
ghost use Rattle.h264_words.specs.declared.refusal.Noise.{Noise as NoiseView};

use crate::command_line::{Task, Wanted, target_of};
use crate::refusal::{Clash, Misplaced, Noise, Refusal, Unreadable};
use h264_base::Target;
use h264_lines::choice::Choice;

/// What the words say beside the task and its files.
#[derive(Clone, Copy)]
pub struct Options<'a> {
    pub explain: bool,
    pub json: bool,
    pub quiet: bool,
    pub progress: bool,
    pub y4m: bool,
    pub strict: bool,
    pub brief: bool,
    /// The name of the output, as the words give it.
    pub output: Option<&'a str>,
    pub choice: Choice,
    /// What the stream has to suit.
    pub target: Target,
}

/// Whether this is a name of standard output.
fn names_standard_output(name: &str) -> bool
    ensures { result ≡ names_standard_output name.now }
{
    name == "-" || name == "/dev/stdout"
}

impl<'a> Options<'a> {
    /// The file that is written in the place of standard output. None where the words name none, or standard output itself.
    pub fn output_file(&self) -> Option<&'a str>
        ensures { option_map (λ s. s.now) result ≡ output_file (option_map (λ s. s.now) self.now.output) }
    {
        match self.output {
            Some(name) => {
                if names_standard_output(name) {
                    None
                } else {
                    Some(name)
                }
            }
            None => None,
        }
    }

    /// Whether an option tells more of a judgement than its sink does.
    pub fn asks_for_survey(&self) -> bool
        ensures { result ≡ asks_for_survey self.now }
    {
        self.explain || self.json || self.progress
    }
}

/// That a value is no number below 2^64.
#[derive(Clone, Copy)]
struct NoNumber;

/// The number that an option has.
fn number_of(value: Option<&str>) -> Result<Option<u64>, NoNumber>
    ensures number { IfOk result (IsNumber (option_map (λ v. v.now) value.entry)) }
    ensures none { IfErr result (λ _. IsNoNumber (option_map (λ v. v.now) value.entry)) }
{
    let Some(text) = value else {
        return Ok(None);
    };
    match text.parse::<u64>() {
        Ok(number) => Ok(Some(number)),
        Err(_) => Err(NoNumber),
    }
}

/// The options that words give.
///
/// An error says which value can't be read.
fn given_options<'a>(wanted: &Wanted<'a>) -> Result<Options<'a>, Unreadable>
    ensures given { IfOk result (AreOptions (subcommand_rows_of wanted.now.matches)) }
    ensures unreadable { IfErr result (IsUnreadable (subcommand_rows_of wanted.now.matches)) }
{
    let Ok(picture) = number_of(wanted.value("picture")) else {
        return Err(Unreadable::Picture);
    };
    let Ok(macroblock) = number_of(wanted.value("mb")) else {
        return Err(Unreadable::Macroblock);
    };
    let Some(target) = target_of(wanted.value("target")) else {
        return Err(Unreadable::Target);
    };
    Ok(Options {
        explain: wanted.has("explain"),
        json: wanted.has("json"),
        quiet: wanted.has("quiet"),
        progress: wanted.has("progress"),
        y4m: wanted.has("y4m"),
        strict: wanted.has("strict"),
        brief: wanted.has("brief"),
        output: wanted.value("output"),
        choice: Choice {
            picture,
            macroblock,
        },
        target,
    })
}

/// The option that says nothing to a task, if there is one.
fn misplaced(task: Task, options: &Options<'_>, names_target: bool) -> Option<Misplaced>
    ensures some { (given : Given) → (names_target ≡ true → IsSome (value_in given (codes "target"))) →
        IfSome result (IsMisplaced task given options.now) }
    ensures none { (given : Given) → (IsSome (value_in given (codes "target")) → names_target ≡ true) → result ≡ None →
        (which : MisplacedView) → IsMisplaced task given options.now which → ⊥ }
{
    if options.y4m && task != Task::Decode {
        return Some(Misplaced::Y4m);
    }
    if options.strict && !task.has_further_rules() {
        return Some(Misplaced::Strict);
    }
    if options.brief && task != Task::Check {
        return Some(Misplaced::Brief);
    }
    if options.output.is_some() && task != Task::Decode && task != Task::Report {
        return Some(Misplaced::Output);
    }
    let chooses = options.choice.picture.is_some() || options.choice.macroblock.is_some();
    if chooses && task != Task::Elements {
        return Some(Misplaced::Choice);
    }
    if options.explain && !task.is_judging() {
        return Some(Misplaced::Explain);
    }
    if task == Task::Explain && (options.quiet || options.progress || names_target) {
        return Some(Misplaced::BesideExplain);
    }
    None
}

/// The option that `--quiet` excludes, if both are there.
fn noise(options: &Options<'_>) -> Option<Noise>
    ensures some { IfSome result (IsNoise options.now) }
    ensures none { result ≡ None → (noise : NoiseView) → IsNoise options.now noise → ⊥ }
{
    if !options.quiet {
        return None;
    }
    if options.json {
        return Some(Noise::Json);
    }
    if options.explain {
        return Some(Noise::Explain);
    }
    if options.progress {
        return Some(Noise::Progress);
    }
    None
}

/// How often a name stands among those of files.
fn times(files: &[&str], name: &str) -> usize
    ensures once { (0 < result) ↔ (0 < times (map (λ f. f.now) files.now) name.now) }
    ensures again { (1 < result) ↔ (1 < times (map (λ f. f.now) files.now) name.now) }
{
    let mut count = 0usize;
    for file in files.iter() {
        if *file == name {
            count = count.saturating_add(1);
        }
    }
    count
}

/// Why these files and this output do not go together, if they do not.
fn clash(task: Task, options: &Options<'_>, files: &[&str]) -> Option<Clash>
    ensures some { IfSome result (IsClash task options.now (map (λ f. f.now) files.now)) }
    ensures none { result ≡ None → (clash : ClashView) → IsClash task options.now (map (λ f. f.now) files.now) clash → ⊥ }
{
    if files.len() > 1 && task == Task::Decode {
        return Some(Clash::SeveralToDecode);
    }
    if files.len() > 1 && task == Task::Report {
        return Some(Clash::SeveralToReport);
    }
    if let Some(output) = options.output_file() {
        if times(files, output) > 0 {
            return Some(Clash::OutputIsInput);
        }
    }
    if times(files, "-") > 1 {
        return Some(Clash::InputTwice);
    }
    None
}

/// The options of a command line.
///
/// An error says why they are refused.
pub fn options_of<'a>(wanted: &Wanted<'a>) -> Result<Options<'a>, Refusal>
    ensures given { IfOk result (AreOptions (subcommand_rows_of wanted.now.matches)) }
    ensures used { IfOk result (AreWellUsed wanted.now.request.task (subcommand_rows_of wanted.now.matches)) }
    ensures refused { IfErr result (IsRefused wanted.now.request.task (subcommand_rows_of wanted.now.matches)) }
{
    let options = match given_options(wanted) {
        Ok(options) => options,
        Err(unreadable) => return Err(Refusal::Unreadable(unreadable)),
    };
    let task = wanted.request.task;
    if let Some(misplaced) = misplaced(task, &options, wanted.value("target").is_some()) {
        return Err(Refusal::Misplaced(misplaced));
    }
    if let Some(noise) = noise(&options) {
        return Err(Refusal::Noise(noise));
    }
    match clash(task, &options, wanted.files().unwrap_or(&[])) {
        Some(clash) => Err(Refusal::Clash(clash)),
        None => Ok(options),
    }
}
