//! What `==` of sequence parameter sets says. Nothing here runs.
#![tactic(auto)]

ghost use Rattle.std.specs.Prelude.{◌≡◌, ◌↔◌, IsTrue};
ghost use Rattle.h264_sps.specs.declared.sps.Sps.{Sps};
ghost use Rattle.h264_sps.specs.contracts.sps.SpsPartialEq.TheImpl as eq_sps;

/// `==` of two sets is true exactly where all that they hold is equal: their contents are the same (7.4.1.2.1).
pub fn equal_sets()
    ensures { (a b : Sps) → (IsTrue (eq_sps.ghosts.eq a b) ↔ (a ≡ b)) }
{}
