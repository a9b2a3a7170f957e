//! A sink that compares the frames of a stream with a reconstruction.
#![tactic(auto)]

ghost use Rattle.std.specs.Prelude.{◌≡◌, ℕ, ◌+◌, ◌-◌, ◌<◌, ◌^◌, true, false, [], ◌∷◌, None, IfOk, OnOk};
ghost use Rattle.std.specs.Io.KnownBytes.{Consumes, IsAtEnd};
ghost use Rattle.h264_compare.specs.Numbers.{AreNumbersOf};

use crate::comparing::Comparison;
use crate::given::{Lack, Layout};
use crate::numbers::Numbers;
use h264_base::{ElementName, Elements, Failed, SliceType};
use h264_dpb::{FrameOut, FrameSink, Rectangle};
use h264_plane::Frame;
use h264_units::NalUnitType;
use std::io::Read;
use std::marker::{Brand, PhantomData};

/// For proofs alone: the reconstruction for which a sink was made. Whoever runs the sink picks it.
pub trait Reconstruction {
    ghost use Rattle.std.specs.Prelude.{ℕ, List, Option};
    ghost use Rattle.h264_compare.specs.declared.given.Layout.{Layout};

    /// The bytes that it had left, where they are known.
    ghost start: { Option (List ℕ) };

    /// How its frames lie in it.
    ghost layout: { Layout };
}

impl Reconstruction for Brand {
    ghost use Rattle.std.specs.Prelude.{None};
    ghost use Rattle.h264_compare.specs.declared.given.Layout.TheVariants.{Bare};

    ghost start = { None };

    ghost layout = { Bare };
}

/// Compares what is shown of each frame of a stream, in the order of output, with the next frame of a reconstruction.
///
/// The numbers are those of all frames that the sink took (`specs/Compared.antt`). Where the reconstruction lacks something, the frame is taken, and its
/// samples before that are in the numbers. Then each call fails, and nothing more is read.
#[derive(Drop)]
pub struct CompareSink<R: Read + Drop, K: Reconstruction> {
    comparison: Comparison<R>,
    layout: Layout,
    reconstruction: PhantomData<K>,
    /// What the reconstruction lacks, if it could not be compared with all frames.
    pub lack: Option<Lack>,
    /// How many calls failed.
    pub failures: u64,
}

impl<R: Read + Drop, K: Reconstruction> CompareSink<R, K> {
    /// A sink that was told nothing, before the first frame of a reconstruction.
    pub fn new(reader: R, layout: Layout) -> CompareSink<R, K>
        ensures reader { result.comparison.reader ≡ reader }
        ensures numbers { AreNumbersOf result.comparison.numbers [] }
        ensures layout { result.layout ≡ layout }
        ensures whole { result.lack ≡ None }
        ensures quiet { result.failures ≡ 0 }
    {
        CompareSink {
            comparison: Comparison::new(reader),
            layout,
            reconstruction: PhantomData,
            lack: None,
            failures: 0,
        }
    }

    /// The numbers of the frames that it took.
    pub fn numbers(&self) -> Numbers
        ensures { result ≡ self.now.comparison.numbers }
    {
        self.comparison.numbers
    }

    /// Whether no byte of the reconstruction is left, after the frames that it took. Where one is, it is read.
    ///
    /// Unread: a read failed.
    pub fn is_at_end(&mut self) -> Result<bool, Lack>
        ensures ended { IfOk result (λ at_end. at_end ≡ true → IsAtEnd (R.remaining self.new.comparison.reader)) }
        ensures goes_on { IfOk result (λ at_end. at_end ≡ false → (byte : ℕ) × Consumes (R.remaining self.old.comparison.reader)
            (R.remaining self.new.comparison.reader) (byte ∷ [])) }
        ensures numbers { self.new.comparison.numbers ≡ self.old.comparison.numbers }
    {
        self.comparison.is_at_end()
    }

    /// Whether nothing more is read: the reconstruction lacks something, or no more frames can be counted.
    fn is_stopped(&self) -> bool
        ensures whole { result ≡ false → self.now.lack ≡ None }
        ensures room { result ≡ false → self.now.comparison.numbers.frames < 2 ^ 64 - 1 }
    {
        self.lack.is_some() || self.comparison.numbers.frames == u64::MAX
    }

    /// Counts a failure, at which nothing is read.
    fn fail(&mut self) -> Result<(), Failed>
        requires { self.old.failures < 2 ^ 64 - 1 }
        ensures err { OnOk result ⊥ }
        ensures others { self.new ≡ record self.old { failures = self.old.failures + 1 } }
    {
        self.failures += 1;
        Err(Failed)
    }
}

impl<R: Read + Drop, K: Reconstruction> Elements for CompareSink<R, K> {
    ghost use Rattle.h264_compare.specs.Compared.{HasCompared};
    ghost use Rattle.h264_compare.specs.Stands.{stands};
    ghost use Rattle.std.specs.Prelude.{◌≡◌};

    ghost took = { λ s calls. HasCompared K.start K.layout (stands R.remaining s.comparison) s.lack calls × (s.layout ≡ K.layout) };

    ghost failures = { λ s. s.failures };

    fn element(&mut self, _name: ElementName, _bit: u64, _value: i64) -> Result<(), Failed> {
        if self.is_stopped() {
            return self.fail();
        }
        Ok(())
    }
}

impl<R: Read + Drop, K: Reconstruction> FrameOut for CompareSink<R, K> {
    fn frame(&mut self, _count: i32, frame: &Frame, rectangle: Rectangle) -> Result<(), Failed> {
        if self.is_stopped() {
            return self.fail();
        }
        let lack = self.comparison.compare_frame(self.layout, frame, rectangle);
        self.lack = lack;
        Ok(())
    }
}

impl<R: Read + Drop, K: Reconstruction> FrameSink for CompareSink<R, K> {
    fn unit(
        &mut self,
        _byte: u64,
        _nal_unit_type: NalUnitType,
        _nal_ref_idc: u8,
        _length: u64,
    ) -> Result<(), Failed> {
        if self.is_stopped() {
            return self.fail();
        }
        Ok(())
    }

    fn slice(
        &mut self,
        _byte: u64,
        _first_mb_in_slice: u32,
        _slice_type: SliceType,
        _frame_num: u32,
        _count: i32,
    ) -> Result<(), Failed> {
        if self.is_stopped() {
            return self.fail();
        }
        Ok(())
    }
}
