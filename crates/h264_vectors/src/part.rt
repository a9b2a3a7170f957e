//! Parts of inter macroblocks.
#![tactic(auto)]

ghost use Rattle.std.specs.Prelude.{◌≡◌};
ghost use Rattle.h264_vectors.specs.declared.part.Direction.TheVariants as direction;
ghost use Rattle.h264_vectors.specs.Vectors.{part};

/// Which neighbour the vector of a part is predicted from, where that has the part's reference (8.4.1.3).
#[derive(Clone, Copy)]
pub enum Direction {
    /// None: the median.
    Median,
    /// The one to the left: the lower part of 16x8 and the left part of 8x16.
    FromA,
    /// The one above: the upper part of 16x8.
    FromB,
    /// The one above and to the right: the right part of 8x16.
    FromC,
}

/// A part of a macroblock that has a vector: where it begins and its size, all in 4x4 blocks.
#[derive(Clone, Copy)]
pub struct Part {
    pub x: usize,
    pub y: usize,
    pub wide: usize,
    pub high: usize,
    /// Which neighbour its vector is predicted from first.
    pub direction: Direction,
}

impl Part {
    /// All of a macroblock of 16x16.
    pub(crate) const WHOLE: Part = Part {
        x: 0,
        y: 0,
        wide: 4,
        high: 4,
        direction: Direction::Median,
    };
}

/// A part with its refIdxL0, the place in the reference list of the picture that it is predicted from.
#[derive(Clone, Copy)]
pub struct PredictedPart {
    /// Where it stands, and its size.
    pub place: Part,
    /// 0 to 15.
    pub ref_idx: u32,
}

/// mvd_l0 of a part, in quarter samples: what is added to the prediction of its vector (7.4.5.1).
#[derive(Clone, Copy)]
pub struct VectorDifference {
    /// Its horizontal component.
    pub across: i32,
    /// Its vertical component.
    pub down: i32,
}

/// The two parts of a macroblock of 16x8 or 8x16 (Table 7-13).
#[derive(Clone, Copy)]
pub(crate) struct Halves {
    pub first: Part,
    pub second: Part,
}

impl Halves {
    /// 16x8: the upper part, then the lower one.
    pub(crate) const UPPER_AND_LOWER: Halves = Halves {
        first: Part {
            x: 0,
            y: 0,
            wide: 4,
            high: 2,
            direction: Direction::FromB,
        },
        second: Part {
            x: 0,
            y: 2,
            wide: 4,
            high: 2,
            direction: Direction::FromA,
        },
    };

    /// 8x16: the left part, then the right one.
    pub(crate) const LEFT_AND_RIGHT: Halves = Halves {
        first: Part {
            x: 0,
            y: 0,
            wide: 2,
            high: 4,
            direction: Direction::FromA,
        },
        second: Part {
            x: 2,
            y: 0,
            wide: 2,
            high: 4,
            direction: Direction::FromC,
        },
    };
}

/// A sub-macroblock, which is an 8x8 block of a macroblock of four (6.4.2.2): where it begins, in 4x4 blocks, and what the stream says of it.
#[derive(Clone, Copy)]
pub(crate) struct SubMacroblock {
    pub x: usize,
    pub y: usize,
    pub sub_mb_type: u32,
    /// refIdxL0.
    pub ref_idx: u32,
}

impl SubMacroblock {
    /// The one that begins at this column and row.
    #[inline(always)]
    pub(crate) fn new(x: usize, y: usize, sub_mb_type: u32, ref_idx: u32) -> SubMacroblock
        ensures { result ≡ record { x = x; y = y; sub_mb_type = sub_mb_type; ref_idx = ref_idx } }
    {
        SubMacroblock {
            x,
            y,
            sub_mb_type,
            ref_idx,
        }
    }

    /// Its part that begins here in the macroblock and is of this size, all in 4x4 blocks.
    #[inline(always)]
    pub(crate) fn part(self, x: usize, y: usize, wide: usize, high: usize) -> PredictedPart
        ensures { result ≡ record { place = part x y wide high direction.Median; ref_idx = self.ref_idx } }
    {
        PredictedPart {
            place: Part {
                x,
                y,
                wide,
                high,
                direction: Direction::Median,
            },
            ref_idx: self.ref_idx,
        }
    }
}
