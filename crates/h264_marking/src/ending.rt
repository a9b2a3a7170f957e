//! The end of a picture, by the header of its first slice (8.2.5).
#![tactic(auto)]

ghost use Rattle.std.specs.Prelude.{IsErrOf, ◌≡◌, ◌==◌, true, IsTrue};
ghost use Rattle.std.specs.List.{list_any};
ghost use Rattle.std.specs.Result.{result_unwrap_or};
ghost use Rattle.h264_sps.specs.Usable.{has_lengths};
ghost use Rattle.h264_header.specs.Marking.{number_of};
ghost use Rattle.h264_header.specs.declared.header.Marking.TheVariants.{SlidingWindow};
ghost use Rattle.h264_marking.specs.Held.{mark_answer};
ghost use Rattle.h264_marking.specs.Ended.{numbering_of, ended, resets, resets_by};

use crate::frame::Numbering;
use crate::held::Held;
use h264_base::Stop;
use h264_bits::Found;
use h264_header::{Header, Marking, MarkingOperation, Operation};
use h264_sps::sps::Sps;

/// What the numbers of frames go by in a slice.
pub fn numbering_of(sps: &Sps, header: &Header) -> Numbering
    requires { has_lengths sps.now ≡ true }
    ensures { result ≡ numbering_of sps.now header.now }
{
    Numbering {
        frame_num: header.frame_num.value,
        max_frame_num: 1 << sps.log2_max_frame_num,
        max_num_ref_frames: sps.max_num_ref_frames,
    }
}

/// Whether an operation makes all frames unused.
fn is_reset(operation: Operation) -> bool
    ensures { result ≡ (number_of operation == 5) }
{
    match operation {
        Operation::UnmarkAll => true,
        _ => false,
    }
}

fn has_reset(operations: &[MarkingOperation]) -> bool
    ensures { result ≡ list_any (λ o. number_of o.operation == 5) operations.now }
{
    operations.iter().any(|o| is_reset(o.operation))
}

/// Whether the sliding window marks.
pub fn is_window(marking: &Marking) -> bool
    ensures window { IsTrue result → marking.now ≡ SlidingWindow }
    ensures other { marking.now ≡ SlidingWindow → IsTrue result }
{
    matches!(marking, Marking::SlidingWindow)
}

fn resets_by(marking: &Marking) -> bool
    ensures { result ≡ resets_by marking.now }
{
    match marking {
        Marking::Idr { .. } => false,
        Marking::SlidingWindow => false,
        Marking::Adaptive(operations) => has_reset(operations.as_slice()),
    }
}

/// Whether operation 5 is among a slice's marking.
pub fn resets(marking: &Option<Found<Marking>>) -> bool
    ensures { result ≡ resets marking.now }
{
    match marking {
        None => false,
        Some(found) => resets_by(&found.value),
    }
}

/// Marks at the end of a picture that has this number, where it is a reference.
///
/// No: as for `Held::mark`, and nothing has changed.
pub fn mark_end(
    marking: &Option<Found<Marking>>,
    numbering: &Numbering,
    number: u64,
    held: &mut Held,
) -> Result<(), Stop>
    ensures answer { result ≡ mark_answer (ended marking.now numbering.now number held.old) }
    ensures held { held.new ≡ result_unwrap_or (ended marking.now numbering.now number held.old) held.old }
    ensures no_memory { IsErrOf result Stop.Memory → ⊥ }
{
    match marking {
        None => Ok(()),
        Some(marking) => held.mark(numbering, number, marking),
    }
}
