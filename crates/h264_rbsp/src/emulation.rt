//! The rule on emulation prevention (7.4.1).
#![tactic(auto)]

ghost use Rattle.std.specs.Prelude.{◌≡◌, ℕ, ◌+◌, ◌*◌, ◌<◌, length, MatchOption, OnOk, IfErr};
ghost use Rattle.h264_rbsp.specs.Emulation.{IsFault, IsFirstFault, emulation_checked};

use crate::scan::next_after_zeros;
use h264_base::{Rule, Stop};
use h264_units::NalUnit;

/// The greatest byte that may stand after 00 00 03.
const GREATEST_ESCAPED: u8 = 3;

/// The first place where the bytes of a unit break the rule.
fn first_fault(body: &[u8]) -> Option<usize>
    ensures within { MatchOption result (Unit {0}) (λ place. place < length body.now) }
    ensures first { MatchOption result ((place : ℕ) → IsFault body.now place → ⊥) (IsFirstFault body.now) }
{
    let mut start = 0;
    while start < body.len() {
        let place = next_after_zeros(body, start, 2);
        if place == body.len() {
            return None;
        }
        if body[place] == 2 || place + 1 == body.len() {
            return Some(place);
        }
        if body[place + 1] > GREATEST_ESCAPED {
            return Some(place + 1);
        }
        start = place + 1;
    }
    None
}

/// Whether the unit keeps to emulation prevention: else `Stop::No` names the first bit of the first byte at fault, which is
/// the 02 of 00 00 02, the byte after 00 00 03 where it is above 03, or the 03 of 00 00 03 at the unit's end (7.4.1).
pub fn check_emulation(unit: &NalUnit) -> Result<(), Stop>
    ensures value { result ≡ emulation_checked unit.now.from unit.now.body }
    ensures ok { OnOk result ((place : ℕ) → IsFault unit.now.body place → ⊥) }
    ensures err { IfErr result (λ stop. (place : ℕ) × (stop ≡ Stop.No (8 * (unit.now.from + place)) Rule.Emulation) × IsFirstFault unit.now.body place) }
{
    match first_fault(unit.body()) {
        None => Ok(()),
        Some(place) => Err(Stop::No {
            bit: 8 * (unit.from() + place as u64),
            rule: Rule::Emulation,
        }),
    }
}
