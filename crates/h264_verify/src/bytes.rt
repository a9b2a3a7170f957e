//! The bytes of a unit that is read. They are all that judging a unit takes memory for, but for a picture of another format.
#![tactic(auto)]

ghost use Rattle.std.specs.Prelude.{◌≡◌, true, IfOk, IfErr};
ghost use Rattle.h264_units.specs.UnitTypes.{type_number};
ghost use Rattle.h264_verify.specs.Memory.{reads_slices, is_kind_read, is_read, bytes_of};

use crate::nal_header::NalHeader;
use crate::state::Depth;
use h264_base::Stop;
use h264_rbsp::Rbsp;
use h264_units::{NalUnit, NalUnitType};
use std::alloc::Global;

/// Whether slices are read.
fn reads_slices(depth: Depth) -> bool
    ensures { result ≡ reads_slices depth }
{
    match depth {
        Depth::Units => false,
        Depth::Headers => true,
        Depth::Full => true,
    }
}

/// Whether a unit of this type is read: a parameter set, or a slice where slices are read.
fn is_kind_read(depth: Depth, kind: NalUnitType) -> bool
    ensures { result ≡ is_kind_read depth (type_number kind) }
{
    let is_set = matches!(kind, NalUnitType::SequenceSet | NalUnitType::PictureSet);
    is_set || kind.is_slice() && reads_slices(depth)
}

/// The RBSP of a unit that is read in this mode (7.3.1); None for one that is passed over, of which no byte is copied.
///
/// Err: Memory alone, and only for a unit that is read.
pub fn read_bytes(alloc: Global, depth: Depth, unit: &NalUnit) -> Result<Option<Rbsp>, Stop>
    ensures bytes { IfOk result (λ rbsp. rbsp ≡ bytes_of depth unit.now) }
    ensures err { IfErr result (λ e. (e ≡ Stop.Memory) × (is_read depth unit.now ≡ true)) }
{
    if !is_kind_read(depth, NalHeader::of(unit).nal_unit_type()) {
        return Ok(None);
    }
    match Rbsp::of(alloc, unit) {
        Ok(rbsp) => Ok(Some(rbsp)),
        Err(stop) => Err(stop),
    }
}
