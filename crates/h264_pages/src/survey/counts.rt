//! How many macroblocks of each type a stream has (tables 7-11 and 7-13).
#![tactic(auto)]

ghost use Rattle.std.specs.Prelude.{◌≡◌};
ghost use Rattle.h264_pages.specs.SurveyedPictures.{with_intra, with_inter, with_macroblock, macroblocks_after};

use crate::survey::slice::Slice;
use h264_base::{ElementName, SliceType};
use h264_bits::count_of;

/// How many macroblocks were read, by type.
#[derive(Clone, Copy, Default)]
pub struct MacroblockCounts {
    /// I_NxN: intra prediction of each 4x4 block.
    pub intra_4x4: u64,
    /// I_16x16_0_0_0 and its kin: intra prediction of the whole macroblock.
    pub intra_16x16: u64,
    /// I_PCM: samples as they are.
    pub pcm: u64,
    /// P_L0_16x16.
    pub inter_16x16: u64,
    /// P_L0_L0_16x8.
    pub inter_16x8: u64,
    /// P_L0_L0_8x16.
    pub inter_8x16: u64,
    /// P_8x8 and P_8x8ref0.
    pub inter_8x8: u64,
    /// P_Skip.
    pub skipped: u64,
}

/// mb_type 25 of an I slice.
const I_PCM: u64 = 25;

/// How many values of mb_type in a P slice are of inter prediction.
const INTER_TYPES: u64 = 5;

impl MacroblockCounts {
    /// Counts a macroblock of this mb_type in an I slice (table 7-11).
    fn add_intra(&mut self, mb_type: u64)
        ensures { self.new ≡ with_intra mb_type self.old }
    {
        if mb_type == 0 {
            self.intra_4x4 = self.intra_4x4.saturating_add(1);
        } else if mb_type == I_PCM {
            self.pcm = self.pcm.saturating_add(1);
        } else {
            self.intra_16x16 = self.intra_16x16.saturating_add(1);
        }
    }

    /// Counts an inter macroblock of this mb_type in a P slice (table 7-13).
    fn add_inter(&mut self, mb_type: u64)
        ensures { self.new ≡ with_inter mb_type self.old }
    {
        match mb_type {
            0 => self.inter_16x16 = self.inter_16x16.saturating_add(1),
            1 => self.inter_16x8 = self.inter_16x8.saturating_add(1),
            2 => self.inter_8x16 = self.inter_8x16.saturating_add(1),
            _ => self.inter_8x8 = self.inter_8x8.saturating_add(1),
        }
    }

    /// Counts a macroblock of this mb_type in a slice of this type.
    fn add(&mut self, slice_type: SliceType, mb_type: u64)
        ensures { self.new ≡ with_macroblock slice_type mb_type self.old }
    {
        match slice_type {
            SliceType::I => self.add_intra(mb_type),
            SliceType::P => {
                if mb_type < INTER_TYPES {
                    self.add_inter(mb_type);
                } else {
                    self.add_intra(mb_type - INTER_TYPES);
                }
            }
        }
    }

    /// Notes an element in the slice that is read: mb_type, or mb_skip_run.
    #[tactic(auto, unfolding(crate::specs::SurveyedPictures::macroblocks_after))]
    pub fn note_element(&mut self, name: ElementName, value: i64, slice: &Option<Slice>)
        ensures { self.new ≡ macroblocks_after name value slice.now self.old }
    {
        match name {
            ElementName::MbSkipRun => self.skipped = self.skipped.saturating_add(count_of(value)),
            ElementName::MbType => {
                if let Some(slice) = slice {
                    self.add(slice.slice_type.unwrap_or(SliceType::I), count_of(value));
                }
            }
            _ => {}
        }
    }
}
