//! What is noted of a stream beside its frames: the sequence parameter set in use, and what explains a verdict where that is asked for.
#![tactic(auto)]

ghost use Rattle.std.specs.Prelude.{◌≡◌, ℕ, List, None, IfSome};
ghost use Rattle.h264_pages.specs.Pages.{answer_fields, text_on, AddsFirst};
ghost use Rattle.h264_stream.specs.Noted.{verdict_object};

use crate::sent::{BITS_A_BYTE, CODE_BITS};
use h264_base::{ElementName, Stop, Summary};
use h264_pages::pages::{
    Finding, Page, Start, guide_of, put_bare_verdict_fields, put_verdict_fields,
};
use h264_pages::survey::{Sequence, Sets, Survey};
use h264_verify::NalUnitType;
use std::alloc::{AllocError, Global};
use std::mem;

/// What explains a verdict.
#[derive(Drop)]
struct Explained {
    survey: Survey,
    /// The first bytes of the stream.
    start: Start,
    /// Whether the stream has ended.
    ended: bool,
    /// How many bits of start codes were put in before the unit that is read.
    code_bits: u64,
}

/// What is noted of a stream.
#[derive(Drop)]
pub struct Notes {
    alloc: Global,
    sets: Sets,
    /// The sequence parameter set of the slice that was read last.
    active: Option<Sequence>,
    explained: Option<Explained>,
    /// Whether each element of the unit says something: in a parameter set, or where the verdict is explained.
    listens: bool,
}

impl Notes {
    /// Nothing was noted, and no verdict will be explained.
    pub(crate) fn new(alloc: Global) -> Notes
        ensures { result.active ≡ None }
    {
        Notes {
            alloc,
            sets: Sets::new(alloc),
            active: None,
            explained: None,
            listens: false,
        }
    }

    /// Nothing was noted, and a verdict will be explained. AllocError: there is no memory for the last elements.
    pub(crate) fn explaining(alloc: Global) -> Result<Notes, AllocError> {
        let survey = Survey::new(alloc)?;
        Ok(Notes {
            alloc,
            sets: Sets::new(alloc),
            active: None,
            explained: Some(Explained {
                survey,
                start: Start::new(),
                ended: false,
                code_bits: 0,
            }),
            listens: true,
        })
    }

    /// Hands over all that it has, and is as if new then.
    pub(crate) fn take_all(&mut self) -> Notes
        ensures { result ≡ self.old }
    {
        let none = Notes::new(self.alloc);
        mem::replace(self, none)
    }

    /// The sequence parameter set of the slice that was read last. None: no slice was read.
    pub fn active(&self) -> Option<Sequence>
        ensures { result ≡ self.now.active }
    {
        self.active
    }

    /// Whether memory was wanting for something that was to be noted.
    pub(crate) fn is_short(&self) -> bool {
        let is_unexplained = match &self.explained {
            Some(explained) => explained.survey.is_short(),
            None => false,
        };
        self.sets.is_short || is_unexplained
    }

    /// Notes the next bytes of the stream.
    pub(crate) fn note_bytes(&mut self, piece: &[u8]) {
        if let Some(explained) = &mut self.explained {
            explained.start.note(piece);
        }
    }

    /// Notes that a start code was put in. All units before it were noted.
    pub(crate) fn note_start_code(&mut self) {
        if let Some(explained) = &mut self.explained {
            explained.code_bits = explained.code_bits.saturating_add(CODE_BITS);
        }
    }

    /// Notes that the stream has ended.
    pub(crate) fn note_end(&mut self) {
        if let Some(explained) = &mut self.explained {
            explained.ended = true;
        }
    }

    /// Notes a unit.
    pub(crate) fn note_unit(
        &mut self,
        byte: u64,
        nal_unit_type: NalUnitType,
        nal_ref_idc: u8,
        length: u64,
    ) {
        self.sets.note_unit(nal_unit_type);
        self.listens = self.explained.is_some()
            || matches!(
                nal_unit_type,
                NalUnitType::SequenceSet | NalUnitType::PictureSet
            );
        if let Some(explained) = &mut self.explained {
            let sent_byte = byte.saturating_sub(explained.code_bits / BITS_A_BYTE);
            explained
                .survey
                .note_unit(sent_byte, nal_unit_type, nal_ref_idc, length);
        }
    }

    /// Notes an element. Whether there was memory for all that was noted.
    pub(crate) fn note_element(&mut self, name: ElementName, bit: u64, value: i64) -> bool {
        if !self.listens && !matches!(name, ElementName::PicParameterSetId) {
            return true;
        }
        self.note_heard(name, bit, value);
        !self.is_short()
    }

    /// Notes an element that says something for what is noted.
    fn note_heard(&mut self, name: ElementName, bit: u64, value: i64) {
        self.note_set(name, value);
        if let Some(explained) = &mut self.explained {
            let sent_bit = bit.saturating_sub(explained.code_bits);
            explained.survey.note_element(name, sent_bit, value);
        }
    }

    /// Notes an element of a parameter set, or the one by which a slice names its own.
    fn note_set(&mut self, name: ElementName, value: i64) {
        if self.sets.read.is_some() {
            self.sets.note_element(name, value);
        } else if matches!(name, ElementName::PicParameterSetId) {
            self.active = self.sequence_of(value).or(self.active);
        }
    }

    /// The sequence parameter set that the picture parameter set of this id names.
    fn sequence_of(&self, pic_parameter_set_id: i64) -> Option<Sequence> {
        let id = u64::try_from(pic_parameter_set_id).ok()?;
        self.sets.sequence_of(id)
    }

    /// Notes a frame.
    pub(crate) fn note_frame(&mut self) {
        if let Some(explained) = &mut self.explained {
            explained.survey.note_frame();
        }
    }

    /// Adds the fields of an answer, with its place and what was found there where these were noted.
    fn put_fields(&self, alloc: Global, page: &mut Page, answer: Result<Summary, Stop>)
        ensures { AddsFirst page.old page.new (answer_fields answer) }
    {
        match &self.explained {
            Some(explained) => {
                let finding = Finding::of(
                    answer,
                    &explained.survey,
                    &explained.start,
                    explained.ended,
                );
                put_verdict_fields(
                    alloc,
                    page,
                    answer,
                    &explained.survey,
                    finding,
                    guide_of(answer),
                );
            }
            None => put_bare_verdict_fields(alloc, page, answer, guide_of(answer)),
        }
    }

    /// The object of JSON of an answer. None: there is no memory for it.
    pub(crate) fn object(&self, alloc: Global, answer: Result<Summary, Stop>) -> Option<Page>
        ensures { IfSome result (λ page. (more : List ℕ) × (text_on page ≡ verdict_object answer more)) }
    {
        let mut page = Page::new(alloc);
        page.put("{\"kind\":\"verdict\"");
        self.put_fields(alloc, &mut page, answer);
        page.put("}");
        if page.is_short() { None } else { Some(page) }
    }
}
