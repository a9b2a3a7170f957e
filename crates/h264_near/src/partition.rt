//! How an inter macroblock is partitioned (6.4.2).
#![tactic(auto)]

ghost use Rattle.std.specs.Prelude.{◌≡◌, ◌<◌};
ghost use Rattle.h264_near.specs.Partition.{first_in_sub};

/// How a sub-macroblock is partitioned, by its sub_mb_type (Table 7-17).
#[derive(Clone, Copy)]
pub enum SubPartition {
    /// P_L0_8x8.
    P8x8,
    /// P_L0_8x4.
    P8x4,
    /// P_L0_4x8.
    P4x8,
    /// P_L0_4x4.
    P4x4,
}

impl SubPartition {
    /// The first block of the partition in which a block lies. The four blocks of a sub-macroblock stand row by row, from 0 on.
    #[inline(always)]
    pub fn first_block(self, block: usize) -> usize
        requires { block < 4 }
        ensures here { result ≡ first_in_sub self block }
        ensures within { result < 4 }
    {
        match self {
            SubPartition::P8x8 => 0,
            SubPartition::P8x4 => block / 2 * 2,
            SubPartition::P4x8 => block % 2,
            SubPartition::P4x4 => block,
        }
    }
}

/// How an inter macroblock is partitioned, by its mb_type (Table 7-13).
#[derive(Clone, Copy)]
pub enum Partition {
    /// P_L0_16x16.
    P16x16,
    /// P_L0_L0_16x8.
    P16x8,
    /// P_L0_L0_8x16.
    P8x16,
    /// P_8x8 or P_8x8ref0: four sub-macroblocks, in the order of the stream.
    P8x8([SubPartition; 4]),
}
