//! How many vectors two macroblocks in a row have (A.3.1).
#![tactic(auto)]

ghost use Rattle.std.specs.Prelude.{◌≡◌};
ghost use Rattle.h264_strict.specs.StrictVectors.{no_vectors, vectors_of_type, vectors_of_part, vectors_after, vectors_in, exceeds, by_vectors};

use h264_base::ElementName;

/// How many vectors the macroblocks read last have, MvCnt of each (8.4.1).
#[derive(Clone, Copy)]
pub struct Vectors {
    /// The slice that is read is a P slice.
    pub is_p: bool,
    /// Those that the macroblock before the last has.
    pub earlier: u64,
    /// Those that the last one has, as far as it was read.
    pub current: u64,
}

/// The vectors of a macroblock of a P slice by its mb_type (table 7-13): none of its own where it has sub-macroblocks, or is an intra macroblock.
fn vectors_of_type(mb_type: u64) -> u64
    ensures { result ≡ vectors_of_type mb_type }
{
    if mb_type == 0 {
        1
    } else if mb_type == 1 || mb_type == 2 {
        2
    } else {
        0
    }
}

/// The vectors of a sub-macroblock, NumSubMbPart (table 7-17).
fn vectors_of_part(sub_mb_type: u64) -> u64
    ensures { result ≡ vectors_of_part sub_mb_type }
{
    if sub_mb_type == 0 {
        1
    } else if sub_mb_type == 1 || sub_mb_type == 2 {
        2
    } else {
        4
    }
}

/// Whether there are more than so many.
fn exceeds(limit: Option<u64>, vectors: u64) -> bool
    ensures { result ≡ exceeds limit vectors }
{
    match limit {
        None => false,
        Some(limit) => limit < vectors,
    }
}

impl Vectors {
    /// Before the first macroblock.
    pub fn new() -> Vectors
        ensures { result ≡ no_vectors }
    {
        Vectors {
            is_p: false,
            earlier: 0,
            current: 0,
        }
    }

    /// The vectors of a macroblock of this slice by its mb_type.
    fn vectors_in(self, mb_type: u64) -> u64
        ensures { result ≡ vectors_in self mb_type }
    {
        if self.is_p {
            vectors_of_type(mb_type)
        } else {
            0
        }
    }

    /// Notes an element.
    #[tactic(auto, unfolding(crate::specs::StrictVectors::vectors_after))]
    pub fn note(&mut self, name: ElementName, value: u64)
        ensures { self.new ≡ vectors_after self.old name value }
    {
        match name {
            ElementName::SliceType => self.is_p = value == 0 || value == 5,
            ElementName::MbSkipRun => {
                if value != 0 {
                    self.earlier = if value == 1 { self.current } else { 1 };
                    self.current = 1;
                }
            }
            ElementName::MbType => {
                self.earlier = self.current;
                self.current = self.vectors_in(value);
            }
            ElementName::SubMbType => {
                self.current = self.current.saturating_add(vectors_of_part(value));
            }
            _ => {}
        }
    }

    /// Whether this element is the one with which two macroblocks in a row have more vectors than so many.
    #[tactic(auto, unfolding(crate::specs::StrictVectors::by_vectors))]
    pub fn passes(self, limit: Option<u64>, name: ElementName, value: u64) -> bool
        ensures { result ≡ by_vectors limit self name value }
    {
        let pair = self.earlier.saturating_add(self.current);
        match name {
            ElementName::MbSkipRun => value != 0 && exceeds(limit, self.current.saturating_add(1)),
            ElementName::MbType => {
                exceeds(limit, self.current.saturating_add(self.vectors_in(value)))
            }
            ElementName::SubMbType => {
                !exceeds(limit, pair) && exceeds(limit, pair.saturating_add(vectors_of_part(value)))
            }
            _ => false,
        }
    }
}
