//! What a unit breaks by its bytes: SEI at its messages, and all else at its first bit.
#![tactic(auto)]

ghost use Rattle.std.specs.Prelude.{◌≡◌, None, get_or, length, OnOk, OnErr, IfOk, IfErr};
ghost use Rattle.h264_base.specs.declared.stop.Stop.{Stop};
ghost use Rattle.h264_strict.specs.Strict.{with_places};
ghost use Rattle.h264_strict.specs.StrictContent.{message_bits, content_bits, bits_by_bytes, set_by, set_after, times_told};
ghost use Rattle.h264_strict.specs.StrictRules.{place_of};
ghost use Rattle.h264_units.specs.UnitTypes.{type_number};

use crate::sei::{KnownSet, TimesTold, is_sei, message_at, times_of};
use crate::strict::{Places, note_in};
use crate::strict_bytes::{by_rbsp, is_judged, kind_of};
use crate::strict_rule::{STRICT_RULES, StrictRule, broken_if};
use h264_base::Stop;
use h264_rbsp::Rbsp;
use h264_units::{NalUnit, NalUnitType};
use std::alloc::Global;

/// What a unit leaves for later ones.
#[derive(Clone, Copy)]
pub(crate) struct UnitTold {
    /// The set that is known after it.
    pub(crate) set: KnownSet,
    /// What it says of times.
    pub(crate) times: TimesTold,
}

/// Notes each message that is not as its syntax says.
fn note_messages(found: &mut [Option<Places>; STRICT_RULES], known: &KnownSet, rbsp: &Rbsp)
    ensures { (r : StrictRule) → get_or found.new (place_of r) None ≡ with_places (get_or found.old (place_of r) None)
        (message_bits r known.now (length rbsp.now.bytes) rbsp.now 0) }
{
    let mut at = 0;
    for _n in 0..rbsp.bytes().len() {
        let Some(message) = message_at(known, rbsp, at) else {
            return;
        };
        let rule = broken_if(!message.holds, StrictRule::SeiContent);
        note_in(found, rule, rbsp.stream_bit(8 * at));
        at = message.end;
    }
}

/// Notes what the messages of a unit of this type break.
fn note_content(
    found: &mut [Option<Places>; STRICT_RULES],
    known: &KnownSet,
    kind: NalUnitType,
    rbsp: &Rbsp,
)
    ensures { (r : StrictRule) → get_or found.new (place_of r) None ≡ with_places (get_or found.old (place_of r) None)
        (content_bits r known.now (type_number kind) rbsp.now) }
{
    match kind {
        NalUnitType::Sei => {
            if is_sei(rbsp.bytes()) {
                note_messages(found, known, rbsp);
            }
        }
        _ => {}
    }
}

/// The set that is known after a unit of this type.
fn set_by(known: &KnownSet, kind: NalUnitType, rbsp: &Rbsp) -> KnownSet
    ensures { result ≡ set_by known.now (type_number kind) rbsp.now }
{
    match kind {
        NalUnitType::SequenceSet => known.after(rbsp),
        _ => *known,
    }
}

/// Notes what a unit breaks by its bytes, and says what it leaves for later ones. The one error is `Stop::Memory`, after which nothing has changed.
pub(crate) fn note_bytes(
    alloc: Global,
    found: &mut [Option<Places>; STRICT_RULES],
    known: &KnownSet,
    unit: &NalUnit,
) -> Result<UnitTold, Stop>
    ensures noted { OnOk result ((r : StrictRule) → get_or found.new (place_of r) None ≡ with_places (get_or found.old (place_of r) None)
        (bits_by_bytes r known.now unit.now)) }
    ensures set { IfOk result (λ told. told.set ≡ set_after known.now unit.now) }
    ensures times { IfOk result (λ told. told.times ≡ times_told known.now unit.now) }
    ensures unnoted { OnErr result (found.new ≡ found.old) }
    ensures err { IfErr result (λ e. e ≡ Stop.Memory) }
{
    let kind = kind_of(unit);
    if !is_judged(kind) {
        return Ok(UnitTold {
            set: *known,
            times: TimesTold::new(),
        });
    }
    let rbsp = Rbsp::of(alloc, unit)?;
    note_in(found, by_rbsp(kind, rbsp.bytes()), 8 * unit.from());
    note_content(found, known, kind, &rbsp);
    Ok(UnitTold {
        set: set_by(known, kind, &rbsp),
        times: times_of(known, kind, &rbsp),
    })
}
