//! What becomes of a piece of the input, found before any of it is kept.
#![tactic(auto)]

ghost use Rattle.std.specs.Prelude.{◌≡◌, ◌+◌, ◌-◌, ◌<◌, ◌≤◌, [], ◌++◌, take, drop, length, replicate, vec_len, vec_capacity, OnOk, OnErr, IfOk, IfErr};
ghost use Rattle.h264_units.specs.Stream.{input_limit};
ghost use Rattle.h264_units.specs.Splitting.{Refused};
ghost use Rattle.h264_units.specs.Scanned as spec;
ghost use Rattle.h264_units.specs.Scanned.{kept_of, zeros_gained, added, Plans, IsSound, IsKept, IsOpen, IsInUnit, rest_of};

use crate::scan::{Phase, scan_unit, zero_run};
use h264_base::{Feature, Rule, Stop};
use std::alloc::AllocError;

/// The most bytes of a unit.
const UNIT_LIMIT: usize = 1 << 28;

/// The most bytes of an input.
const INPUT_LIMIT: u64 = 1 << 40;

/// What becomes of a piece.
#[derive(Clone, Copy)]
pub(crate) struct Plan {
    /// How many of its bytes are taken.
    pub(crate) taken: usize,
    /// How many 00 bytes stand before the start code, or between units.
    pub(crate) lead: u64,
    /// How many of the 00 bytes held back turn out to be the unit's.
    pub(crate) zeros: u8,
    /// Where the bytes of the piece begin that are surely the unit's.
    pub(crate) start: usize,
    /// How many these are.
    pub(crate) kept: usize,
    /// How far the input was read then.
    pub(crate) phase: Phase,
}

/// Whether a unit waits.
pub(crate) fn waits(phase: Phase) -> bool
    ensures { result ≡ spec.waits phase }
{
    matches!(phase, Phase::Waiting(_) | Phase::Last(_))
}

/// Whether bytes are taken.
pub(crate) fn is_open(phase: Phase) -> bool
    ensures { result ≡ spec.is_open phase }
{
    matches!(phase, Phase::Between | Phase::Inside(_))
}

/// How many bytes of the input were taken, with these after the last unit taken, which ended at this place.
pub(crate) fn length(at: u64, lead: u64, body: &[u8], phase: Phase) -> u64
    requires { at + length (rest_of phase lead body.now) ≤ input_limit }
    ensures { result ≡ at + length (rest_of phase lead body.now) }
{
    let body = body.len() as u64;
    match phase {
        Phase::Between | Phase::Over => at + lead,
        Phase::Inside(zeros) | Phase::Last(zeros) => at + lead + 3 + body + u64::from(zeros),
        Phase::Waiting(_) => at + lead + 3 + body + 3,
    }
}

/// How many of the bytes taken are surely the unit's.
fn kept(taken: usize, phase: Phase) -> usize
    requires { IsInUnit phase }
    ensures { result ≡ kept_of taken phase }
{
    match phase {
        Phase::Inside(zeros) => taken.saturating_sub(usize::from(zeros)),
        Phase::Waiting(_) => taken.saturating_sub(3),
        _ => 0,
    }
}

/// How many of the 00 bytes held back are the unit's, where so many bytes after them are.
fn gained(held: u8, kept: usize) -> u8
    ensures { result ≡ zeros_gained held kept }
{
    if kept == 0 { 0 } else { held }
}

/// What becomes of a piece where a unit is open.
pub(crate) fn plan_inside(
    at: u64,
    lead: u64,
    body: &[u8],
    held: u8,
    piece: &[u8],
) -> Result<Plan, Stop>
    requires sound { IsSound (Phase.Inside held) body.now }
    requires fits { at + length (rest_of (Phase.Inside held) lead body.now ++ piece.now) ≤ input_limit }
    ensures ok { IfOk result (Plans (Phase.Inside held) lead body.now piece.now) }
    ensures err { IfErr result (Refused at (rest_of (Phase.Inside held) lead body.now ++ piece.now)) }
{
    let (taken, phase) = scan_unit(held, piece);
    let kept = kept(taken, phase);
    let zeros = gained(held, kept);
    let length = body.len() + usize::from(zeros) + kept;
    if length > UNIT_LIMIT {
        return Err(Stop::Outside {
            bit: 8 * (at + lead + 3),
            feature: Feature::UnitTooLong,
        });
    }
    if length == 0 && waits(phase) {
        return Err(Stop::No {
            bit: 8 * (at + lead + 3),
            rule: Rule::EmptyUnit,
        });
    }
    Ok(Plan {
        taken,
        lead,
        zeros,
        start: 0,
        kept,
        phase,
    })
}

/// The piece without its first bytes.
fn following(piece: &[u8], start: usize) -> &[u8]
    requires { start ≤ length piece.now }
    ensures { result.now ≡ drop start piece.now }
{
    &piece[start..]
}

/// What becomes of a piece where no unit is open.
pub(crate) fn plan_between(at: u64, lead: u64, piece: &[u8]) -> Result<Plan, Stop>
    requires { at + length (rest_of Phase.Between lead [] ++ piece.now) ≤ input_limit }
    ensures ok { IfOk result (Plans Phase.Between lead [] piece.now) }
    ensures err { IfErr result (Refused at (rest_of Phase.Between lead [] ++ piece.now)) }
{
    let zeros = zero_run(piece);
    let lead = lead + zeros as u64;
    if zeros == piece.len() {
        return Ok(Plan {
            taken: zeros,
            lead,
            zeros: 0,
            start: zeros,
            kept: 0,
            phase: Phase::Between,
        });
    }
    if piece[zeros] != 1 || lead < 2 {
        return Err(Stop::No {
            bit: 8 * (at + lead),
            rule: Rule::ByteStream,
        });
    }
    let start = zeros + 1;
    let plan = plan_inside(at, lead - 2, &[], 0, following(piece, start))?;
    Ok(Plan {
        taken: start + plan.taken,
        start: start + plan.start,
        ..plan
    })
}

/// What becomes of a piece of an input that has room for it.
fn plan_front(at: u64, lead: u64, body: &[u8], phase: Phase, piece: &[u8]) -> Result<Plan, Stop>
    requires open { IsOpen phase }
    requires sound { IsSound phase body.now }
    requires fits { at + length (rest_of phase lead body.now ++ piece.now) ≤ input_limit }
    ensures ok { IfOk result (Plans phase lead body.now piece.now) }
    ensures err { IfErr result (Refused at (rest_of phase lead body.now ++ piece.now)) }
{
    match phase {
        Phase::Between => plan_between(at, lead, piece),
        Phase::Inside(held) => plan_inside(at, lead, body, held, piece),
        _ => unreachable!(),
    }
}

/// The first bytes of the piece.
fn front(piece: &[u8], end: usize) -> &[u8]
    requires { end ≤ length piece.now }
    ensures { result.now ≡ take end piece.now }
{
    &piece[..end]
}

/// What becomes of a piece.
pub(crate) fn plan_piece(
    at: u64,
    lead: u64,
    body: &[u8],
    phase: Phase,
    piece: &[u8],
) -> Result<Plan, Stop>
    requires open { IsOpen phase }
    requires kept { IsKept phase at lead body.now }
    ensures ok { IfOk result (Plans phase lead body.now piece.now) }
    ensures fits { IfOk result (λ plan. at + length (rest_of phase lead body.now ++ take plan.taken piece.now) ≤ input_limit) }
    ensures err { IfErr result (Refused at (rest_of phase lead body.now ++ piece.now)) }
{
    let room = (INPUT_LIMIT - length(at, lead, body, phase)) as usize;
    if piece.len() <= room {
        return plan_front(at, lead, body, phase, piece);
    }
    let plan = plan_front(at, lead, body, phase, front(piece, room))?;
    if is_open(plan.phase) {
        return Err(Stop::Outside {
            bit: 8 * INPUT_LIMIT,
            feature: Feature::InputTooLong,
        });
    }
    Ok(plan)
}

/// Adds 00 bytes to a body that has room for them.
fn push_zeros(body: &mut Vec<u8>, zeros: u8)
    requires { vec_len body.old + zeros ≤ vec_capacity body.old }
    ensures items { body.new.items ≡ body.old.items ++ replicate zeros 0 }
    ensures capacity { vec_capacity body.new ≡ vec_capacity body.old }
{
    for _ in 0..zeros {
        body.push_reserved(0);
    }
}

/// Adds to a body what a plan says. All memory is taken first.
pub(crate) fn extend(body: &mut Vec<u8>, plan: Plan, piece: &[u8]) -> Result<(), AllocError>
    requires within { plan.start + plan.kept ≤ length piece.now }
    requires few { plan.zeros < 3 }
    ensures ok { OnOk result (body.new.items ≡ body.old.items ++ added plan piece.now) }
    ensures err { OnErr result (body.new.items ≡ body.old.items) }
    ensures grows { OnErr result (0 < plan.zeros + plan.kept) }
{
    body.reserve(usize::from(plan.zeros) + plan.kept)?;
    push_zeros(body, plan.zeros);
    body.extend_from_slice(&piece[plan.start..plan.start + plan.kept])
}
