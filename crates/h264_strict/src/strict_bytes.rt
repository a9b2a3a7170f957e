//! The rules on the bytes of units that the verdict passes over: SEI, delimiters and filler data (7.3.2.3, 7.3.2.4, 7.3.2.7).
#![tactic(auto)]

ghost use Rattle.std.specs.Prelude.{◌≡◌, ◌≤◌, ◌^◌, length};
ghost use Rattle.h264_strict.specs.StrictBytes.{is_delimiter, is_filler, is_judged, by_rbsp, kind_of};
ghost use Rattle.h264_units.specs.UnitTypes.{type_number};

use crate::sei::{after, ff_bytes, is_sei, is_trailing};
use crate::strict_rule::{StrictRule, broken_if};
use h264_units::{NalUnit, NalUnitType};

/// Whether the trailing bits of a delimiter follow its first 3 bits.
fn is_delimiter(bytes: &[u8]) -> bool
    ensures { result ≡ is_delimiter bytes.now }
{
    match bytes {
        [] => true,
        [byte, ..] => *byte % 32 == 16,
    }
}

/// Whether these are bytes FF and then trailing bits.
fn is_filler(bytes: &[u8]) -> bool
    ensures { result ≡ is_filler bytes.now }
{
    is_trailing(after(bytes, ff_bytes(bytes)))
}

/// The nal_unit_type of a unit.
pub(crate) fn kind_of(unit: &NalUnit) -> NalUnitType
    ensures { type_number result ≡ kind_of unit.now }
{
    NalUnitType::of(unit.body()[0])
}

/// Whether the bytes of units of this type are looked at: rules are on them, or messages need what they say.
pub(crate) fn is_judged(kind: NalUnitType) -> bool
    ensures { result ≡ is_judged (type_number kind) }
{
    matches!(
        kind,
        NalUnitType::Sei | NalUnitType::SequenceSet | NalUnitType::Delimiter | NalUnitType::Filler
    )
}

/// The rule that the RBSP of a unit of this type breaks.
pub(crate) fn by_rbsp(kind: NalUnitType, bytes: &[u8]) -> Option<StrictRule>
    requires { length bytes.now ≤ 2 ^ 28 }
    ensures { result ≡ by_rbsp (type_number kind) bytes.now }
{
    match kind {
        NalUnitType::Sei => broken_if(!is_sei(bytes), StrictRule::SeiSizes),
        NalUnitType::Delimiter => broken_if(!is_delimiter(bytes), StrictRule::DelimiterBits),
        NalUnitType::Filler => broken_if(!is_filler(bytes), StrictRule::FillerBytes),
        _ => None,
    }
}
