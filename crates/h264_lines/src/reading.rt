//! How far a stream was read: which picture, and which macroblock.
#![tactic(auto)]

ghost use Rattle.std.specs.Prelude.{◌≡◌, None};
ghost use Rattle.h264_lines.specs.Chosen.{after_run, after_type, after_first, after_element};

use h264_base::ElementName;
use h264_bits::count_of;

/// How far the slice that is read has come.
#[derive(Clone, Copy)]
pub struct Reach {
    /// The address of the macroblock that was begun last, the first one of a run that is skipped.
    pub macroblock: Option<u64>,
    /// The address that the next macroblock has.
    pub next: u64,
}

/// How far a stream was read.
#[derive(Clone, Copy)]
pub struct Reading {
    /// How many pictures were begun.
    pub pictures: u64,
    /// How far the slice has come; none outside slices.
    pub reach: Option<Reach>,
}

impl Reach {
    /// After a run of macroblocks that are skipped (mb_skip_run).
    fn after_run(self, run: u64) -> Reach
        ensures { result ≡ after_run run self }
    {
        if run == 0 {
            return self;
        }
        Reach {
            macroblock: Some(self.next),
            next: self.next.saturating_add(run),
        }
    }

    /// After a macroblock that begins (mb_type).
    fn after_type(self) -> Reach
        ensures { result ≡ after_type self }
    {
        Reach {
            macroblock: Some(self.next),
            next: self.next.saturating_add(1),
        }
    }
}

impl Reading {
    /// Before the first unit.
    pub fn new() -> Reading
        ensures { result ≡ record { pictures = 0; reach = None } }
    {
        Reading {
            pictures: 0,
            reach: None,
        }
    }

    /// Notes a unit: no slice is read yet.
    pub fn note_unit(&mut self)
        ensures { self.new ≡ record self.old { reach = None } }
    {
        self.reach = None;
    }

    /// Begins a slice; the one of macroblock 0 begins a picture.
    fn begin_slice(&mut self, first: u64)
        ensures { self.new ≡ after_first first self.old }
    {
        if first == 0 {
            self.pictures = self.pictures.saturating_add(1);
        }
        self.reach = Some(Reach {
            macroblock: None,
            next: first,
        });
    }

    /// Notes an element.
    pub fn note_element(&mut self, name: ElementName, value: i64)
        ensures { self.new ≡ after_element name value self.old }
    {
        match name {
            ElementName::FirstMbInSlice => self.begin_slice(count_of(value)),
            ElementName::MbSkipRun => {
                if let Some(reach) = self.reach {
                    self.reach = Some(reach.after_run(count_of(value)));
                }
            }
            ElementName::MbType => {
                if let Some(reach) = self.reach {
                    self.reach = Some(reach.after_type());
                }
            }
            _ => {}
        }
    }
}
