//! Why an input is no stream for this program: a container, HEVC, or H.264 that is not judged; and what to do about it.
#![tactic(auto)]

ghost use Rattle.std.specs.Prelude.{◌≡◌, Option, None};
ghost use Rattle.circular_buffer.specs.Buffer.{last_item};
ghost use Rattle.std.specs.List.{list_all, list_any};
ghost use Rattle.std.specs.Option.{option_copied};
ghost use Rattle.std.specs.Str.{chars};
ghost use Rattle.h264_pages.specs.Pages.{Adds};
ghost use Rattle.h264_pages.specs.Reasons.{is_plain, is_shown_as_it_is, is_colon, reason_name, refusal, sentence, remedy, has_remedy};
ghost use Rattle.h264_pages.specs.Reasons.{file_word, file_name, shell_word, shell_quoted, cause_text};
ghost use Rattle.h264_pages.specs.Starts.{asks_for_cabac, is_cabac_asked, IsOfSetRead, reason_in_stream, reason_given, reason_of};
ghost use Rattle.h264_pages.specs.Findings.{rule_in};
ghost use Rattle.h264_pages.specs.declared.pages.glance.Declared.{Declared};

use crate::pages::container::{Container, Start};
use crate::pages::finding::{Answer, rule_of};
use crate::pages::glance::Declared;
use crate::pages::page::Page;
use crate::survey::Survey;
use h264_base::{ElementName, Rule};
use h264_bits::count_of;
use h264_lines::trail::Element;

/// Why an input is no stream for this program, beside the rule that it breaks.
#[derive(Clone, Copy)]
pub enum Reason {
    /// It is a file that holds streams.
    Container(Container),
    /// It is a byte stream of H.265.
    Hevc,
    /// It is of another profile.
    OtherProfile(Declared),
    /// Its entropy coding is CABAC.
    Cabac,
}

impl Reason {
    /// Its name in the field `reason`.
    pub fn name(self) -> &'static str
        ensures { result.now ≡ reason_name self }
    {
        match self {
            Reason::Container(_) => "container",
            Reason::Hevc => "hevc",
            Reason::OtherProfile(_) => "other-profile",
            Reason::Cabac => "cabac",
        }
    }

    /// Why an input with these first bytes and this survey is no stream for this program, if this answer names a rule.
    pub fn of(answer: Answer, survey: &Survey, start: &Start) -> Option<Reason>
        ensures none { rule_in answer ≡ None → result ≡ None }
        ensures why { (declared : Option Declared) × IsOfSetRead declared survey.now × (result ≡
            reason_of start.now.bytes (rule_in answer) declared (last_item survey.now.elements.items)) }
    {
        Reason::given(
            rule_of(answer),
            start.container(),
            start.is_hevc(),
            Declared::of_last(survey, start),
            survey.last_element(),
        )
    }

    /// Why an input that broke this rule is no stream for this program: a container, HEVC, or a byte stream of H.264 that is not judged.
    fn given(
        rule: Option<Rule>,
        container: Option<Container>,
        is_hevc: bool,
        declared: Option<Declared>,
        last: Option<Element>,
    ) -> Option<Reason>
        ensures { result ≡ reason_given rule container is_hevc declared last }
    {
        let rule = rule?;
        if let Some(container) = container {
            return Some(Reason::Container(container));
        }
        if is_hevc {
            return Some(Reason::Hevc);
        }
        Reason::in_stream(rule, declared, last)
    }

    /// Why a byte stream of H.264 that broke this rule is not judged, by what its last set says and the element that was read last.
    #[tactic(auto, unfolding(crate::specs::Starts::reason_in_stream))]
    fn in_stream(rule: Rule, declared: Option<Declared>, last: Option<Element>) -> Option<Reason>
        ensures { result ≡ reason_in_stream rule declared last }
    {
        match rule {
            Rule::Profile => Some(Reason::OtherProfile(declared?)),
            Rule::Tool if is_cabac_asked(last) => Some(Reason::Cabac),
            _ => None,
        }
    }
}

/// Whether this element, read last, is an entropy_coding_mode_flag of 1.
fn is_cabac_asked(last: Option<Element>) -> bool
    ensures { result ≡ is_cabac_asked last }
{
    match last {
        Some(element) => asks_for_cabac(element.name, element.value),
        None => false,
    }
}

/// Whether an element is an entropy_coding_mode_flag of 1.
#[tactic(auto, unfolding(crate::specs::Starts::asks_for_cabac))]
fn asks_for_cabac(name: ElementName, value: i64) -> bool
    ensures { result ≡ asks_for_cabac name value }
{
    match name {
        ElementName::EntropyCodingModeFlag => count_of(value) == 1,
        _ => false,
    }
}

impl Declared {
    /// Adds why it is not judged, as a sentence.
    #[tactic(auto, unfolding(crate::specs::Reasons::refusal))]
    fn put_refusal(&self, page: &mut Page)
        ensures { Adds page.old page.new (refusal self.now) }
    {
        if self.may_suit_main() {
            page.put(
                " The target baseline does not judge this profile. --target main-ip judges it, unless it has B slices.",
            );
        } else if self.is_main() && matches!(self.cabac, Some(true)) {
            page.put(" h264v does not judge CABAC.");
        } else if self.is_main() && self.has_fields() {
            page.put(" h264v does not judge fields.");
        } else if self.is_main() {
            page.put(" The target baseline does not judge this profile.");
        } else {
            page.put(" h264v does not judge this profile.");
        }
    }
}

/// Adds what an input is and that it is not judged, in two sentences.
pub fn put_sentence(page: &mut Page, reason: Reason)
    ensures { Adds page.old page.new (sentence reason) }
{
    match reason {
        Reason::Container(container) => {
            page.put("The input is ");
            page.put(container.title());
            page.put(
                ", which holds streams among other data. h264v judges an H.264 stream once it has been extracted.",
            );
        }
        Reason::Hevc => page.put("The input is an H.265 (HEVC) stream. h264v judges H.264 only."),
        Reason::OtherProfile(declared) => {
            page.put("The input is an H.264 stream: ");
            declared.put(page);
            page.put(".");
            declared.put_refusal(page);
        }
        Reason::Cabac => page.put(
            "The input is an H.264 stream that is coded with CABAC. h264v does not judge CABAC.",
        ),
    }
}

/// Adds what causes an answer: what the input is, where it is no stream for this program; else what usually does.
pub(crate) fn put_cause_text(page: &mut Page, reason: Option<Reason>, usual: &str)
    ensures { Adds page.old page.new (cause_text reason usual.now) }
{
    match reason {
        Some(reason) => put_sentence(page, reason),
        None => page.put(usual),
    }
}

/// Adds the command that extracts the stream of a file, where the input is a container. Whether there is one.
pub fn put_remedy(page: &mut Page, reason: Reason, file: Option<&str>) -> bool
    ensures text { Adds page.old page.new (remedy reason (option_copied file.entry)) }
    ensures is_there { result ≡ has_remedy reason }
{
    match reason {
        Reason::Container(_) => {
            page.put("ffmpeg -i ");
            put_file(page, file);
            page.put(" -c copy -bsf:v h264_mp4toannexb -f h264 OUT.264");
            true
        }
        _ => false,
    }
}

/// Whether a line has a character of a name as it is (docs/OUTPUT.md, Names).
fn is_shown_as_it_is(c: char) -> bool
    ensures { result ≡ is_shown_as_it_is c }
{
    c != '\\' && !c.is_control()
}

/// Adds a file's name as a word of a command for ffmpeg; FILE where it is not known, or where a line can't have it as it is. Before a colon ffmpeg looks for a
/// protocol, which is `file` here.
fn put_file(page: &mut Page, file: Option<&str>)
    ensures { Adds page.old page.new (file_word (option_copied file.entry)) }
{
    match file {
        Some(name) if is_shown_whole(name) => put_name(page, name),
        _ => page.put("FILE"),
    }
}

/// Adds a file's name as a word of a command for ffmpeg.
fn put_name(page: &mut Page, name: &str)
    ensures { Adds page.old page.new (file_name name.now) }
{
    if has_colon(name) {
        page.put("file:");
    }
    put_shell_word(page, name);
}

/// Whether a line has a name as it is.
fn is_shown_whole(name: &str) -> bool
    ensures { result ≡ list_all is_shown_as_it_is (chars name.now) }
{
    name.chars().all(|c| is_shown_as_it_is(c))
}

/// Whether a name has a colon.
fn has_colon(name: &str) -> bool
    ensures { result ≡ list_any is_colon (chars name.now) }
{
    name.chars().any(|c| c == ':')
}

/// Whether a shell takes this character as it is.
fn is_plain(c: char) -> bool
    ensures { result ≡ is_plain c }
{
    c.is_ascii_alphanumeric() || c == '/' || c == '.' || c == '_' || c == '-'
}

/// Whether a shell takes a text as it is.
fn is_plain_whole(text: &str) -> bool
    ensures { result ≡ list_all is_plain (chars text.now) }
{
    text.chars().all(|c| is_plain(c))
}

/// Adds a text as one word of a POSIX shell.
fn put_shell_word(page: &mut Page, text: &str)
    ensures { Adds page.old page.new (shell_word text.now) }
{
    if !text.is_empty() && is_plain_whole(text) {
        page.put(text);
        return;
    }
    put_quoted(page, text);
}

/// Adds a text between single quotation marks of a POSIX shell.
fn put_quoted(page: &mut Page, text: &str)
    ensures { Adds page.old page.new (shell_quoted text.now) }
{
    page.put("'");
    for c in text.chars() {
        if c == '\'' {
            page.put("'\\''");
        } else {
            page.character(c);
        }
    }
    page.put("'");
}
