//! The counts of a stream's pictures, one after another.
#![tactic(auto)]

use crate::lsb::Prev;
use crate::picture::{Count, Picture};
use crate::step::{History, counted_next};
use h264_base::{Rule, Stop};
use std::marker::Model;

/// What counting keeps of the pictures before: a few numbers.
#[derive(Drop)]
pub struct Counts {
    history: History,
}

impl Model for Counts {
    ghost use Rattle.h264_poc.specs.declared.step.History.{History};
    ghost use Rattle.h264_poc.specs.Counts.{IsSmall};

    ghost Value = { History };

    ghost view = { λ c. c.history };

    ghost invariant = { λ c. IsSmall c.history };
}

impl Counts {
    ghost use Rattle.std.specs.Prelude.{◌≡◌, List, [], ◌∷◌, OnOk, OnErr, IfErr};
    ghost use Rattle.std.specs.Option.{ok_or};
    ghost use Rattle.h264_base.specs.declared.rule.Rule.TheVariants as rule;
    ghost use Rattle.h264_base.specs.declared.stop.Stop.TheVariants.{No};
    ghost use Rattle.h264_poc.specs.declared.picture.Picture.{Picture};
    ghost use Rattle.h264_poc.specs.Counts.{count_of, Keeps};

    /// Of no picture yet.
    pub fn new() -> Self
        ensures { Keeps [] result }
    {
        Counts {
            history: History {
                prev: Prev { msb: 0, lsb: 0 },
                frame_num: 0,
                frame_num_offset: 0,
                non_reference: false,
            },
        }
    }

    /// Counts the next picture in decoding order. Gap frames are no pictures, and do not come here.
    ///
    /// No: a count is out of range, or a second non-reference picture of type 2 follows, or FrameNumOffset reaches 2^62; the
    /// rule is Count, at `bit`, and nothing has changed.
    pub fn next(&mut self, picture: &Picture, bit: u64) -> Result<Count, Stop>
        ensures counts { (pictures : List Picture) → Keeps pictures self.old → result ≡ ok_or (count_of pictures picture.now) (No bit rule.Count) }
        ensures kept { (pictures : List Picture) → Keeps pictures self.old → OnOk result (Keeps (picture.now ∷ pictures) self.new) }
        ensures named { IfErr result (λ e. e ≡ No bit rule.Count) }
        ensures unchanged { OnErr result (self.new ≡ self.old) }
    {
        match counted_next(self.history, picture) {
            Some(step) => {
                self.history = step.history;
                Ok(step.count)
            }
            None => Err(Stop::No {
                bit,
                rule: Rule::Count,
            }),
        }
    }
}
