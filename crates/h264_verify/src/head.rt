//! What a slice has once its header is read.
#![tactic(auto)]

ghost use Rattle.std.specs.Prelude.{◌≡◌, ◌≤◌, true, Some};
ghost use Rattle.std.specs.Option.{is_some};
ghost use Rattle.h264_header.specs.Layout.{sets_of};
ghost use Rattle.h264_sps.specs.Usable.{has_lengths, is_usable};

use h264_header::{Header, named_sets};
use h264_marking::Numbering;
use h264_pps::Pps;
use h264_sets::Sets;
use h264_sps::sps::Sps;
use h264_units::NalUnit;

/// Where a slice stands: in its unit, under the parameter sets that it names, and in its picture.
#[derive(Clone, Copy)]
pub(crate) struct SlicePlace<'a> {
    pub(crate) unit: &'a NalUnit,
    pub(crate) pps: &'a Pps,
    pub(crate) sps: &'a Sps,
    /// It is the first of its picture (7.4.1.2.4).
    pub(crate) begins: bool,
}

/// A slice's header, where the slice stands, and what the numbers of frames go by in it.
#[derive(Clone, Copy)]
pub(crate) struct SliceHead<'a> {
    pub(crate) place: SlicePlace<'a>,
    pub(crate) header: &'a Header,
    pub(crate) numbering: Numbering,
}

/// The parameter sets that a slice names; they were there when its header was read.
pub(crate) fn sets_named<'a>(sets: &'a Sets, header: &Header) -> (&'a Pps, &'a Sps)
    requires id { header.now.pic_parameter_set_id.value ≤ 255 }
    requires named { is_some (sets_of sets.now header.now.pic_parameter_set_id.value) ≡ true }
    ensures sets { sets_of sets.now header.now.pic_parameter_set_id.value ≡ Some (result.0.now, result.1.now) }
    ensures lengths { has_lengths result.1.now ≡ true }
    ensures usable { is_usable result.1.now ≡ true }
{
    let Some(named) = named_sets(sets, header.pic_parameter_set_id.value) else {
        unreachable!()
    };
    named
}
