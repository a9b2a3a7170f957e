//! Whether the slices of a picture say the same of its marking (7.4.3.3).
#![tactic(auto)]

ghost use Rattle.std.specs.Prelude.{◌≡◌};
ghost use Rattle.h264_header.specs.SameMarking.{same_operations, same_values, same_marking};

use crate::header::{Marking, MarkingOperation};
use h264_bits::Found;

fn same_operations(first: &[MarkingOperation], later: &[MarkingOperation]) -> bool
    ensures { result ≡ same_operations first.now later.now }
{
    match (first.split_first(), later.split_first()) {
        (None, None) => true,
        (Some((a, first)), Some((b, later))) => {
            a.operation == b.operation && same_operations(first, later)
        }
        _ => false,
    }
}

fn same_values(first: &Marking, later: &Marking) -> bool
    ensures { result ≡ same_values first.now later.now }
{
    match (first, later) {
        (
            Marking::Idr {
                no_output_of_prior_pics_flag: no_output,
                long_term_reference_flag: long_term,
            },
            Marking::Idr {
                no_output_of_prior_pics_flag: later_no_output,
                long_term_reference_flag: later_long_term,
            },
        ) => *no_output == *later_no_output && *long_term == *later_long_term,
        (Marking::SlidingWindow, Marking::SlidingWindow) => true,
        (Marking::Adaptive(first), Marking::Adaptive(later)) => {
            same_operations(first.as_slice(), later.as_slice())
        }
        _ => false,
    }
}

/// Whether the values of all marking elements of two slices are the same.
pub fn same_marking(first: &Option<Found<Marking>>, later: &Option<Found<Marking>>) -> bool
    ensures { result ≡ same_marking first.now later.now }
{
    match (first, later) {
        (None, None) => true,
        (Some(first), Some(later)) => same_values(&first.value, &later.value),
        _ => false,
    }
}
