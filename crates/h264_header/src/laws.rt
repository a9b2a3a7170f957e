//! What the definitions imply of parameter sets, and what `==` of a header's types says.
#![tactic(auto)]

ghost use Rattle.std.specs.Prelude.{◌≡◌, ◌↔◌, ℕ, IsTrue, Some};
ghost use Rattle.h264_base.specs.declared.mode.Target.{Target};
ghost use Rattle.h264_sps.specs.declared.sps.Sps.{Sps};
ghost use Rattle.h264_pps.specs.declared.Pps.{Pps};
ghost use Rattle.h264_sets.specs.Sets.{Maps, sps_of, pps_of};
ghost use Rattle.h264_header.specs.Layout.{sets_of};
ghost use Rattle.h264_header.specs.Accepted.{IsAcceptedSps, IsAcceptedPps};
ghost use Rattle.h264_header.specs.declared.header.Operation.{Operation};
ghost use Rattle.h264_header.specs.declared.header.Marking.{Marking};
ghost use Rattle.h264_header.specs.contracts.header.OperationPartialEq.TheImpl as eq_operation;
ghost use Rattle.h264_header.specs.contracts.header.MarkingPartialEq.TheImpl as eq_marking;

/// A slice that names a picture parameter set finds it and its sequence parameter set, where both are there and some unit gave
/// them: the bounds on ids and lengths in `sets_of` leave none of these out (7.4.1.2.1).
pub fn accepted_sets()
    ensures { (target : Target) (maps : Maps) (id : ℕ) (p : Pps) (s : Sps) → IsAcceptedPps target p → IsAcceptedSps target s → pps_of maps id ≡ Some p →
        sps_of maps p.seq_parameter_set_id ≡ Some s → sets_of maps id ≡ Some (p, s) }
{}

/// `==` finds two operations equal exactly where they are one: the same operation with the same operands.
pub fn equal_operations()
    ensures { (a b : Operation) → IsTrue (eq_operation.ghosts.eq a b) ↔ (a ≡ b) }
{}

/// `==` finds two markings equal exactly where they are one, the bits of their operations among them.
pub fn equal_markings()
    ensures { (a b : Marking) → IsTrue (eq_marking.ghosts.eq a b) ↔ (a ≡ b) }
{}
