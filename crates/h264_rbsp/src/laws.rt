//! What the definitions of the RBSP and of emulation prevention imply.
#![tactic(auto)]

ghost use Rattle.std.specs.Prelude.{◌≡◌, ℕ, ◌+◌, ◌*◌, ◌<◌, List, length, MatchResult};
ghost use Rattle.h264_base.specs.declared.rule.Rule.TheVariants.{Emulation};
ghost use Rattle.h264_base.specs.declared.stop.Stop.TheVariants.{No};
ghost use Rattle.h264_units.specs.Stream.{NalUnit};
ghost use Rattle.h264_rbsp.specs.Emulation.{IsFault, IsFirstFault, emulation_checked};
ghost use Rattle.h264_rbsp.specs.Rbsp.{IsPlaced};

/// Each byte of a unit's RBSP is the unit's byte at its place.
pub fn placed_bytes()
    ensures { (unit : NalUnit) → 0 < length unit.body → IsPlaced unit }
{}

/// The answer that a check of any bytes gives is right: none is at fault, or the first is named.
pub fn checked_bytes()
    ensures { (from : ℕ) (body : List ℕ) → MatchResult (emulation_checked from body) (λ _. (place : ℕ) → IsFault body place → ⊥)
        (λ stop. (place : ℕ) × (stop ≡ No (8 * (from + place)) Emulation) × IsFirstFault body place) }
{}
