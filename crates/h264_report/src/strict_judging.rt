//! A judgement beside which the units are read that the verdict passes over.
#![tactic(auto)]

ghost use Rattle.std.specs.Prelude.{◌≡◌, ℕ, ◌+◌, ◌-◌, ◌<◌, ◌^◌, ◌⊎◌, Bool, true, List, [], Some, OnOk, IsErrOf};
ghost use Rattle.h264_base.specs.Call.{HasRoom, IsQuiet, span};
ghost use Rattle.h264_verify.specs.Giving.{AreFirst};
ghost use Rattle.h264_verify.specs.Modes.{purpose_for};
ghost use Rattle.h264_verify.specs.Telling.{Family, IsFamilyFor};
ghost use Rattle.h264_verify.specs.Units.{terms_of};
ghost use Rattle.h264_verify.specs.Verdict.{Judged};
ghost use Rattle.h264_strict.specs.StrictUnits.{TellsOfBytes};

use crate::strict_source::{Inside, Lent, UnitSource};
use h264_base::{Mode, Stop, Target};
use h264_strict::strict_units::UnitsRead;
use h264_verify::{FrameSink, Source, Summary, run};
use std::alloc::Global;
use std::marker::Brand;

/// What came of a stream.
#[derive(Clone, Copy)]
pub struct StrictJudgement {
    pub answer: Result<Summary, Stop>,
    /// What its units break by their bytes.
    pub units: UnitsRead,
}

/// Judges the stream that a source gives, for this target, and reads the units of the bytes that it gave: the source, and what came of both.
fn judge_inside<'a, K: Inside, R: Source, S: FrameSink>(
    alloc: Global,
    lent: Lent<'a, R>,
    sink: &mut S,
    mode: Mode,
    target: Target,
) -> (Lent<'a, R>, StrictJudgement)
    requires name { lent.source.ghost_name ≡ K.name }
    requires sink { HasRoom S.failures sink.old }
    requires source { HasRoom R.failures lent.source.now }
    ensures same_reference { result.0.source.ghost_name ≡ K.name }
    ensures verdict { (bytes : List ℕ) → R.left lent.entry.source.now ≡ Some bytes → (frames : Family) → IsFamilyFor (purpose_for mode) frames →
        Judged (terms_of mode target) (span S.took S.failures sink.old sink.new) bytes frames [] result.1.answer }
    ensures units { (bytes : List ℕ) × (ended : Bool) × AreFirst (R.left lent.entry.source.now) bytes ended × OnOk result.1.answer (ended ≡ true)
        × ((frames : Family) → IsFamilyFor (purpose_for mode) frames →
        Judged (terms_of mode target) (span S.took S.failures sink.old sink.new) bytes frames [] result.1.answer)
        × TellsOfBytes result.1.units.extent ended result.1.units.found result.1.units.lack bytes }
    ensures read { IsErrOf result.1.answer Stop.Read → (R.failures result.0.source.now ≡ R.failures lent.entry.source.now + 1)
        ⊎ ((n : ℕ) → R.was_read lent.entry.source.now n → R.was_read result.0.source.now (n + 2 ^ 41)) }
    ensures read_told { (R.failures result.0.source.now ≡ R.failures lent.entry.source.now) ⊎ IsErrOf result.1.answer Stop.Read }
    ensures write { IsErrOf result.1.answer Stop.Write → S.failures sink.new ≡ S.failures sink.old + 1 }
    ensures write_told { (IsQuiet S.failures sink.old sink.new) ⊎ IsErrOf result.1.answer Stop.Write }
{
    let mut inside: UnitSource<'a, R, K> = UnitSource::new(alloc, lent);
    let answer = run(alloc, &mut inside, sink, mode, target);
    let (lent, units) = inside.finish();
    (lent, StrictJudgement { answer, units })
}

/// The verdict on the stream that a source gives, for this target, and what the units of the bytes that it gave break by their bytes.
///
/// The answer is that of `run`.
pub fn judge_strictly<R: Source, S: FrameSink>(
    alloc: Global,
    source: &mut R,
    sink: &mut S,
    mode: Mode,
    target: Target,
) -> StrictJudgement
    requires sink { HasRoom S.failures sink.old }
    requires source { HasRoom R.failures source.old }
    ensures verdict { (bytes : List ℕ) → R.left source.old ≡ Some bytes → (frames : Family) → IsFamilyFor (purpose_for mode) frames →
        Judged (terms_of mode target) (span S.took S.failures sink.old sink.new) bytes frames [] result.answer }
    // The answer and what is told of units are on the same bytes, which are the first of the source's; and a yes comes after its end.
    ensures units { (bytes : List ℕ) × (ended : Bool) × AreFirst (R.left source.old) bytes ended × OnOk result.answer (ended ≡ true)
        × ((frames : Family) → IsFamilyFor (purpose_for mode) frames →
        Judged (terms_of mode target) (span S.took S.failures sink.old sink.new) bytes frames [] result.answer)
        × TellsOfBytes result.units.extent ended result.units.found result.units.lack bytes }
    ensures read { IsErrOf result.answer Stop.Read → (R.failures source.new ≡ R.failures source.old + 1)
        ⊎ ((n : ℕ) → R.was_read source.old n → R.was_read source.new (n + 2 ^ 41)) }
    // A read that failed is told as Read.
    ensures read_told { (IsQuiet R.failures source.old source.new) ⊎ IsErrOf result.answer Stop.Read }
    ensures write { IsErrOf result.answer Stop.Write → S.failures sink.new ≡ S.failures sink.old + 1 }
    // A write that failed is told as Write.
    ensures write_told { (IsQuiet S.failures sink.old sink.new) ⊎ IsErrOf result.answer Stop.Write }
{
    let lent = Lent { source };
    let (_, judgement) = judge_inside::<Brand, R, S>(alloc, lent, sink, mode, target);
    judgement
}
