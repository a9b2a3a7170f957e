//! The strengths bS of the edges of a macroblock (8.7.2.1).
#![tactic(auto)]

ghost use Rattle.std.specs.Prelude.{◌≡◌, ◌<◌, nat_le, ◌-ℤ◌, unsigned_abs, List, Option, true, false};
ghost use Rattle.h264_near.specs.Partition.{MovesByPartition};
ghost use Rattle.h264_near.specs.declared.partition.Partition.TheVariants.{P16x16};
ghost use Rattle.h264_near.specs.Coded.{CodedMacroblock};
ghost use Rattle.h264_near.specs.Keeps.{AreContexts};
ghost use Rattle.h264_deblock.specs.CodedEdges.{named, strength_at, strengths};
ghost use Rattle.h264_deblock.specs.Strength.{moves_apart};
ghost use Rattle.h264_deblock.specs.Words.{all_names, AreWords};
ghost use Rattle.h264_deblock.specs.Steps.{LiesAlong, inter_strength, number_at, inner_lines, alike, are_like, is_steady};
ghost use Rattle.h264_deblock.specs.Steps.{MovesBy, AreJoined, IsEven};
ghost use Rattle.h264_near.specs.declared.motion.Motion.{Motion as Motions};
ghost use Rattle.h264_deblock.specs.Steps.{HasStillLines};
ghost use Rattle.h264_deblock.specs.Level.{names, IsWord};

use crate::joined::is_joined;
use crate::named::{FOUR, Word};
use h264_near::block::{are_blank, number};
use h264_near::{Contexts, Edge, Motion, Partition};

/// The strengths of the inner edges of a macroblock by their line of blocks, from 1 on, and the place along it.
#[derive(Clone, Copy)]
pub(crate) struct InnerStrengths {
    pub vertical: [Word; 3],
    pub horizontal: [Word; 3],
}

/// bS of blocks that have no coefficients and are predicted from different pictures, or by vectors a whole sample or more apart.
const ONE: u8 = 1;

/// bS of blocks of which one has coefficients.
const TWO: u8 = 2;

/// bS of an edge by which no sample changes.
pub(crate) const ZEROS: Word = [0; 4];

/// bS of the inner edges of an intra macroblock.
const THREES: Word = [3; 4];

/// bS of the edge between two macroblocks of which one is intra.
pub(crate) const FOURS: Word = [FOUR; 4];

/// Whether two components differ by a whole sample or more.
#[inline(always)]
fn component_far(a: i16, b: i16) -> bool
    ensures { result ≡ nat_le 4 (unsigned_abs (a -ℤ b)) }
{
    4 <= (a as i32 - b as i32).unsigned_abs()
}

/// Whether two blocks are predicted from different pictures, or by vectors that differ by a whole sample or more.
#[inline(always)]
fn moves_apart(a: &Option<Motion>, b: &Option<Motion>) -> bool
    ensures { result ≡ moves_apart a.now b.now }
{
    let Some(a) = a else {
        return false;
    };
    let Some(b) = b else {
        return false;
    };
    if a.picture == b.picture {
        return component_far(a.vector.x, b.vector.x) | component_far(a.vector.y, b.vector.y);
    }
    true
}

/// bS of two blocks of which neither is intra. `coded` says that one of them has coefficients, and `alike` that one picture and one vector predict both.
#[inline(always)]
pub(crate) fn inter(coded: bool, alike: bool, p: &Option<Motion>, q: &Option<Motion>) -> u8
    ensures here { (alike ≡ true → moves_apart p.now q.now ≡ false) → named result ≡ inter_strength coded p.now q.now }
    ensures small { result < 4 }
{
    if coded {
        return TWO;
    }
    if alike {
        return 0;
    }
    if moves_apart(p, q) {
        return ONE;
    }
    0
}

/// The number of the block of a macroblock at this line of blocks, a column of them or a row, and the place along it.
#[inline(always)]
fn number_at(vertical: bool, line: usize, k: usize) -> usize
    requires line { line < 4 }
    requires place { k < 4 }
    ensures here { result ≡ number_at vertical line k }
    ensures within { result < 16 }
{
    if vertical {
        return number(line, k);
    }
    number(k, line)
}

/// bS between a macroblock and the one beside it, neither of them intra.
#[inline(always)]
fn outer(edge: &Edge, own: &Contexts, vertical: bool, k: usize) -> u8
    requires place { k < 4 }
    requires beside { edge.now.intra ≡ false }
    requires own { own.now.intra ≡ false }
    ensures here { (p q : CodedMacroblock) → LiesAlong vertical edge.now p → AreContexts own.now q → named result ≡ strength_at vertical 0 p q k }
    ensures small { result < 4 }
{
    let b = number_at(vertical, 0, k);
    let coded = (0 < edge.totals[k]) | (0 < own.totals[b]);
    inter(coded, false, &edge.motions[k], &own.motions[b])
}

/// The strengths of the edge between two macroblocks of which neither is intra.
#[inline(always)]
fn outer_line(edge: &Edge, own: &Contexts, vertical: bool) -> Word
    requires beside { edge.now.intra ≡ false }
    requires own { own.now.intra ≡ false }
    ensures here { (p q : CodedMacroblock) → LiesAlong vertical edge.now p →
        AreContexts own.now q → names result ≡ strengths vertical 0 p q }
    ensures word { IsWord result }
{
    [
        outer(edge, own, vertical, 0),
        outer(edge, own, vertical, 1),
        outer(edge, own, vertical, 2),
        outer(edge, own, vertical, 3),
    ]
}

/// Whether the blocks along an edge have no coefficients and are predicted from one picture by one vector.
#[inline(always)]
fn is_steady(edge: &Edge) -> bool
    ensures { result ≡ is_steady edge.now }
{
    if !are_blank(&edge.totals) {
        return false;
    }
    are_like(&edge.motions, &edge.motions[0])
}

/// The strengths of the edge between a macroblock and the one beside it, to the left or above. `even` says that nothing tells the blocks of the one
/// apart: they have no coefficients, and one picture and one vector predict all of them.
#[inline(always)]
pub(crate) fn border_strengths(edge: &Edge, own: &Contexts, even: bool, vertical: bool) -> Word
    ensures here { (even ≡ true → IsEven own.now) → (p q : CodedMacroblock) → LiesAlong vertical edge.now p →
        AreContexts own.now q → names result ≡ strengths vertical 0 p q }
    ensures word { IsWord result }
{
    if edge.intra {
        return FOURS;
    }
    if own.intra {
        return FOURS;
    }
    if even {
        if is_steady(edge) {
            return [inter(false, false, &edge.motions[0], &own.motions[0]); 4];
        }
    }
    outer_line(edge, own, vertical)
}

/// bS inside a macroblock that is not intra, before this line of blocks. `alike` says that no vector changes there.
#[inline(always)]
fn inner(own: &Contexts, alike: bool, vertical: bool, line: usize, k: usize) -> u8
    requires some { 0 < line }
    requires line { line < 4 }
    requires place { k < 4 }
    requires inter { own.now.intra ≡ false }
    ensures here { (alike ≡ true → AreJoined vertical line own.now.motions) → (coded : CodedMacroblock) →
        AreContexts own.now coded → named result ≡ strength_at vertical line coded coded k }
    ensures small { result < 4 }
{
    let p = number_at(vertical, line - 1, k);
    let q = number_at(vertical, line, k);
    let coded = (0 < own.totals[p]) | (0 < own.totals[q]);
    inter(coded, alike, &own.motions[p], &own.motions[q])
}

/// The strengths of the edge before a line of blocks, likewise.
#[inline(always)]
fn inner_blocks(own: &Contexts, alike: bool, vertical: bool, line: usize) -> Word
    requires some { 0 < line }
    requires line { line < 4 }
    requires inter { own.now.intra ≡ false }
    ensures here { (alike ≡ true → AreJoined vertical line own.now.motions) → (coded : CodedMacroblock) →
        AreContexts own.now coded → names result ≡ strengths vertical line coded coded }
    ensures word { IsWord result }
{
    [
        inner(own, alike, vertical, line, 0),
        inner(own, alike, vertical, line, 1),
        inner(own, alike, vertical, line, 2),
        inner(own, alike, vertical, line, 3),
    ]
}

/// The strengths of the edge before a line of blocks. Within partitions coefficients alone tell its blocks apart.
#[inline(always)]
fn inner_line(own: &Contexts, partition: &Option<Partition>, vertical: bool, line: usize) -> Word
    requires some { 0 < line }
    requires line { line < 4 }
    requires inter { own.now.intra ≡ false }
    ensures here { MovesBy partition.now own.now.motions → (coded : CodedMacroblock) →
        AreContexts own.now coded → names result ≡ strengths vertical line coded coded }
    ensures word { IsWord result }
{
    if is_joined(partition, vertical, line) {
        return inner_blocks(own, true, vertical, line);
    }
    inner_blocks(own, false, vertical, line)
}

/// The strengths of the inner edges of one direction.
#[inline(always)]
fn inner_lines(own: &Contexts, partition: &Option<Partition>, vertical: bool) -> [Word; 3]
    requires inter { own.now.intra ≡ false }
    ensures here { MovesBy partition.now own.now.motions → (coded : CodedMacroblock) →
        AreContexts own.now coded → all_names result ≡ inner_lines vertical coded }
    ensures words { AreWords result }
{
    [
        inner_line(own, partition, vertical, 1),
        inner_line(own, partition, vertical, 2),
        inner_line(own, partition, vertical, 3),
    ]
}

/// The strengths in both directions of a macroblock that is not intra.
#[inline(never)]
fn by_blocks(own: &Contexts, partition: &Option<Partition>) -> InnerStrengths
    requires inter { own.now.intra ≡ false }
    ensures vertical { MovesBy partition.now own.now.motions → (coded : CodedMacroblock) → AreContexts own.now coded →
        all_names result.vertical ≡ inner_lines true coded }
    ensures horizontal { MovesBy partition.now own.now.motions → (coded : CodedMacroblock) → AreContexts own.now coded →
        all_names result.horizontal ≡ inner_lines false coded }
    ensures vertical_words { AreWords result.vertical }
    ensures horizontal_words { AreWords result.horizontal }
{
    InnerStrengths {
        vertical: inner_lines(own, partition, true),
        horizontal: inner_lines(own, partition, false),
    }
}

/// Whether two blocks are predicted from one picture by one vector.
#[inline(always)]
fn is_alike(a: &Option<Motion>, b: &Option<Motion>) -> bool
    ensures { result ≡ alike a.now b.now }
{
    let Some(a) = a else {
        return b.is_none();
    };
    let Some(b) = b else {
        return false;
    };
    if a.picture != b.picture {
        return false;
    }
    if a.vector.x != b.vector.x {
        return false;
    }
    a.vector.y == b.vector.y
}

/// Whether blocks are predicted from one picture by one vector, as this one.
#[inline(always)]
pub(crate) fn are_like(motions: &[Option<Motion>; 4], first: &Option<Motion>) -> bool
    ensures { result ≡ are_like first.now motions.now }
{
    for motion in motions {
        if !is_alike(motion, first) {
            return false;
        }
    }
    true
}

/// Whether a macroblock is known to be one partition: one picture and one vector predict all its blocks.
#[inline(always)]
fn is_one_partition(partition: &Option<Partition>) -> bool
    ensures { result ≡ true → (motions : List (Option Motions)) → MovesBy partition.now motions → MovesByPartition P16x16 motions }
{
    match partition {
        None => false,
        Some(partition) => matches!(partition, Partition::P16x16),
    }
}

/// Whether nothing tells the blocks of a macroblock apart, which is known to be one partition: no coefficient.
#[inline]
pub(crate) fn is_even(own: &Contexts, partition: &Option<Partition>) -> bool
    ensures { MovesBy partition.now own.now.motions → result ≡ true → IsEven own.now }
{
    if !is_one_partition(partition) {
        return false;
    }
    are_blank(&own.totals)
}

/// Whether a macroblock is inter and nothing tells its blocks apart, which `even` says: no inner edge has a bS but 0.
#[inline]
pub(crate) fn is_uniform(own: &Contexts, even: bool) -> bool
    ensures { result ≡ true → (even ≡ true → IsEven own.now) → (coded : CodedMacroblock) → AreContexts own.now coded → HasStillLines coded }
{
    if own.intra {
        return false;
    }
    even
}

/// The strengths of the inner edges of a macroblock, by its partition if it is known; `even` says that nothing tells its blocks apart.
pub(crate) fn inner_strengths(
    own: &Contexts,
    partition: &Option<Partition>,
    even: bool,
) -> InnerStrengths
    ensures vertical { MovesBy partition.now own.now.motions → (even ≡ true → IsEven own.now) → (coded : CodedMacroblock) →
        AreContexts own.now coded → all_names result.vertical ≡ inner_lines true coded }
    ensures horizontal { MovesBy partition.now own.now.motions → (even ≡ true → IsEven own.now) → (coded : CodedMacroblock) →
        AreContexts own.now coded → all_names result.horizontal ≡ inner_lines false coded }
    ensures vertical_words { AreWords result.vertical }
    ensures horizontal_words { AreWords result.horizontal }
{
    if own.intra {
        return InnerStrengths {
            vertical: [THREES; 3],
            horizontal: [THREES; 3],
        };
    }
    if even {
        return InnerStrengths {
            vertical: [ZEROS; 3],
            horizontal: [ZEROS; 3],
        };
    }
    by_blocks(own, partition)
}
