//! Which inner edges of a macroblock lie within its partitions (6.4.2): no vector changes there.
#![tactic(auto)]

ghost use Rattle.std.specs.Prelude.{◌≡◌, ℕ, ◌<◌, List, get_or, Option, true};
ghost use Rattle.h264_near.specs.declared.motion.Motion.{Motion};
ghost use Rattle.h264_near.specs.declared.partition.SubPartition.TheVariants.{P8x8};
ghost use Rattle.h264_near.specs.Partition.{MovesByPartition};
ghost use Rattle.h264_deblock.specs.Steps.{MovesBy, AreJoined};

use h264_near::{Partition, SubPartition};

/// The line of blocks, a column of them or a row, with which the second half of a macroblock begins.
const HALF: usize = 2;

/// Whether a sub-macroblock is one partition.
#[inline(always)]
fn is_one_part(sub_partition: SubPartition) -> bool
    ensures { result ≡ true → sub_partition ≡ P8x8 }
{
    matches!(sub_partition, SubPartition::P8x8)
}

/// Whether each sub-macroblock is.
#[inline(always)]
fn are_one_part(types: &[SubPartition; 4]) -> bool
    ensures { result ≡ true → (q : ℕ) → q < 4 → get_or types.now q P8x8 ≡ P8x8 }
{
    is_one_part(types[0]) && is_one_part(types[1]) && is_one_part(types[2]) && is_one_part(types[3])
}

/// Whether an inner edge, which stands before this line of blocks, lies within the partitions of a macroblock.
#[inline(always)]
fn is_within(partition: &Partition, vertical: bool, line: usize) -> bool
    requires some { 0 < line }
    requires line { line < 4 }
    ensures { result ≡ true → (motions : List (Option Motion)) → MovesByPartition partition.now motions → AreJoined vertical line motions }
{
    match partition {
        Partition::P16x16 => true,
        Partition::P16x8 => {
            if vertical {
                return true;
            }
            line != HALF
        }
        Partition::P8x16 => {
            if !vertical {
                return true;
            }
            line != HALF
        }
        Partition::P8x8(types) => {
            if line == HALF {
                return false;
            }
            are_one_part(types)
        }
    }
}

/// Whether it is known to.
#[inline(always)]
pub(crate) fn is_joined(partition: &Option<Partition>, vertical: bool, line: usize) -> bool
    requires some { 0 < line }
    requires line { line < 4 }
    ensures { result ≡ true → (motions : List (Option Motion)) → MovesBy partition.now motions → AreJoined vertical line motions }
{
    match partition {
        None => false,
        Some(partition) => is_within(partition, vertical, line),
    }
}
