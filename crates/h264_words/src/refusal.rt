//! Why options are refused.
#![tactic(auto)]

ghost use Rattle.std.specs.Prelude.{◌≡◌};
ghost use Rattle.h264_words.specs.Options.{clash_text, misplaced_text, noise_text, refusal_text, unreadable_text};

/// An option whose value can't be read.
#[derive(Clone, Copy)]
pub enum Unreadable {
    /// `--picture` has no number.
    Picture,
    /// `--mb` has no number.
    Macroblock,
    /// `--target` names no target.
    Target,
}

impl Unreadable {
    /// What is said of it.
    fn text(self) -> &'static str
        ensures { result.now ≡ unreadable_text self }
    {
        match self {
            Unreadable::Picture => "--picture wants the number of a picture, from 0",
            Unreadable::Macroblock => "--mb wants the address of a macroblock, from 0",
            Unreadable::Target => "--target is baseline or main-ip",
        }
    }
}

/// An option that says nothing to the task.
#[derive(Clone, Copy)]
pub enum Misplaced {
    Y4m,
    Strict,
    Brief,
    Output,
    /// `--picture` or `--mb`.
    Choice,
    Explain,
    /// One beside the task `explain`, which takes `--json` alone.
    BesideExplain,
}

impl Misplaced {
    /// What is said of it.
    fn text(self) -> &'static str
        ensures { result.now ≡ misplaced_text self }
    {
        match self {
            Misplaced::Y4m => "--y4m belongs to decode",
            Misplaced::Strict => "--strict belongs to check and report",
            Misplaced::Brief => "--brief belongs to check",
            Misplaced::Output => "--output belongs to decode and report",
            Misplaced::Choice => "--picture and --mb belong to elements",
            Misplaced::Explain => {
                "--explain belongs to check, units, headers, frames, decode and elements"
            }
            Misplaced::BesideExplain => "explain takes no option but --json",
        }
    }
}

/// An option that `--quiet` excludes.
#[derive(Clone, Copy)]
pub enum Noise {
    Json,
    Explain,
    Progress,
}

impl Noise {
    /// What is said of it.
    fn text(self) -> &'static str
        ensures { result.now ≡ noise_text self }
    {
        match self {
            Noise::Json => "--quiet and --json exclude one another",
            Noise::Explain => "--quiet and --explain exclude one another",
            Noise::Progress => "--quiet and --progress exclude one another",
        }
    }
}

/// Files that do not go together with the task or with one another.
#[derive(Clone, Copy)]
pub enum Clash {
    SeveralToDecode,
    SeveralToReport,
    OutputIsInput,
    /// Standard input, more than once.
    InputTwice,
}

impl Clash {
    /// What is said of them.
    fn text(self) -> &'static str
        ensures { result.now ≡ clash_text self }
    {
        match self {
            Clash::SeveralToDecode => "decode takes one FILE",
            Clash::SeveralToReport => "report takes one FILE",
            Clash::OutputIsInput => "the output is the input",
            Clash::InputTwice => "standard input is given more than once",
        }
    }
}

/// Why options are refused.
#[derive(Clone, Copy)]
pub enum Refusal {
    Unreadable(Unreadable),
    Misplaced(Misplaced),
    Noise(Noise),
    Clash(Clash),
}

impl Refusal {
    /// What is said of it, in a line after the program's name.
    pub fn text(self) -> &'static str
        ensures { result.now ≡ refusal_text self }
    {
        match self {
            Refusal::Unreadable(unreadable) => unreadable.text(),
            Refusal::Misplaced(misplaced) => misplaced.text(),
            Refusal::Noise(noise) => noise.text(),
            Refusal::Clash(clash) => clash.text(),
        }
    }
}
