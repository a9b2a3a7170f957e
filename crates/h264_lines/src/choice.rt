//! What is chosen of a stream.
#![tactic(auto)]

ghost use Rattle.std.specs.Prelude.{◌≡◌};
ghost use Rattle.h264_lines.specs.Chosen.{is_chosen, has_picture, has_macroblock};

use crate::reading::Reading;

/// What is chosen of a stream.
#[derive(Clone, Copy, Default)]
pub struct Choice {
    /// The picture of this number in decoding order, from 0; any where there is none.
    pub picture: Option<u64>,
    /// The macroblock of this address; any where there is none.
    pub macroblock: Option<u64>,
}

impl Choice {
    /// Whether the picture that is read is chosen.
    pub fn has_picture(&self, reading: Reading) -> bool
        ensures { result ≡ has_picture self.now.picture reading }
    {
        match self.picture {
            Some(number) => {
                reading.reach.is_some() && reading.pictures > 0 && reading.pictures - 1 == number
            }
            None => true,
        }
    }

    /// Whether the macroblocks that were begun last are chosen.
    pub fn has_macroblock(&self, reading: Reading) -> bool
        ensures { result ≡ has_macroblock self.now.macroblock reading }
    {
        let Some(address) = self.macroblock else {
            return true;
        };
        let Some(reach) = reading.reach else {
            return false;
        };
        match reach.macroblock {
            Some(first) => first <= address && address < reach.next,
            None => false,
        }
    }

    /// Whether what is read is chosen.
    pub fn is_chosen(&self, reading: Reading) -> bool
        ensures { result ≡ is_chosen self.now reading }
    {
        self.has_picture(reading) && self.has_macroblock(reading)
    }
}
