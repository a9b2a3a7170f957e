//! The contexts at the beginning of a slice (9.3.1.1).
#![tactic(auto)]

ghost use Rattle.std.specs.Prelude.{◌≡◌, ℤ, ◌<◌, ◌≤◌, slice_get, map, length, Some};
ghost use Rattle.std.specs.Option.{option_and_then};
ghost use Rattle.h264_cabac.specs.Contexts.{IsInitial, initial_state, pair_of, i_place, p_place};
ghost use Rattle.h264_cabac.specs.Given.{state_of};

use crate::context::Context;
use crate::pairs_1_2::{PAIRS_1, PAIRS_2};
use crate::pairs_i_0::{I_PAIRS, PAIRS_0};

/// How many ctxIdx there are up to the last that frame macroblocks of I and P slices use.
pub const CONTEXTS: usize = 436;

/// The table that the contexts of a slice begin with (9.3.1.1).
#[derive(Clone, Copy, Debug, PartialEq, Eq)]
pub enum InitTable {
    /// That of I slices.
    Intra,
    /// That of P slices with cabac_init_idc 0.
    CabacInit0,
    /// That of P slices with cabac_init_idc 1.
    CabacInit1,
    /// That of P slices with cabac_init_idc 2.
    CabacInit2,
}

/// The place of a ctxIdx in the table of I slices.
#[tactic(auto, unfolding(crate::specs::Contexts::i_place))]
fn i_place(index: usize) -> Option<usize>
    ensures { result ≡ i_place index }
{
    match index {
        3..=10 => Some(index - 3),
        60..=69 => Some(index - 60 + 8),
        73..=275 => Some(index - 73 + 18),
        399..=435 => Some(index - 399 + 221),
        _ => None,
    }
}

/// The place of a ctxIdx in a table of P slices.
#[tactic(auto, unfolding(crate::specs::Contexts::p_place))]
fn p_place(index: usize) -> Option<usize>
    ensures { result ≡ p_place index }
{
    match index {
        3..=23 => Some(index - 3),
        40..=69 => Some(index - 40 + 21),
        73..=275 => Some(index - 73 + 51),
        399..=435 => Some(index - 399 + 254),
        _ => None,
    }
}

/// The pair at a place of a table.
fn looked_up(pairs: &[(i8, i8)], place: Option<usize>) -> Option<(i8, i8)>
    ensures { result ≡ option_and_then (slice_get pairs.now) place }
{
    match place {
        Some(place) => pairs.get(place).copied(),
        None => None,
    }
}

/// The values m and n of a ctxIdx; None where frame macroblocks of such a slice do not use it.
pub fn pair_of(table: InitTable, index: usize) -> Option<(i8, i8)>
    ensures { result ≡ pair_of table index }
{
    match table {
        InitTable::Intra => looked_up(&I_PAIRS, i_place(index)),
        InitTable::CabacInit0 => looked_up(&PAIRS_0, p_place(index)),
        InitTable::CabacInit1 => looked_up(&PAIRS_1, p_place(index)),
        InitTable::CabacInit2 => looked_up(&PAIRS_2, p_place(index)),
    }
}

/// The context of a ctxIdx. Where such a slice does not use it, the context is one that no bin was decoded with.
fn initial_context(table: InitTable, slice_qp: u8, index: usize) -> Context
    ensures { (pair : ℤ × ℤ) → pair_of table index ≡ Some pair → state_of result ≡ initial_state pair slice_qp }
{
    match pair_of(table, index) {
        Some(pair) => Context::initial(pair, slice_qp),
        None => Context::UNUSED,
    }
}

/// The contexts by ctxIdx, as a slice of this SliceQPY begins.
pub fn initial_contexts(table: InitTable, slice_qp: u8) -> [Context; CONTEXTS]
    ensures states { IsInitial table slice_qp (map state_of result) }
    ensures count { length result ≡ 436 }
{
    let mut contexts = [Context::UNUSED; CONTEXTS];
    for index in 0..CONTEXTS {
        contexts[index] = initial_context(table, slice_qp, index);
    }
    contexts
}
