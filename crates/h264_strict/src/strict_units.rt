//! A reader of the units that stand in bytes, for the rules on the bytes of units.
#![tactic(auto)]

ghost use Rattle.std.specs.Prelude.{◌≡◌, ℕ, ◌+◌, ◌*◌, ◌≤◌, ◌<◌, ◌++◌, true, false, List, [], length, take, None, IsFalse, IfOk, IfErr, OnOk, OnErr};
ghost use Rattle.h264_base.specs.declared.stop.Stop.{Stop};
ghost use Rattle.h264_strict.specs.BufferUnits.{ended_bits};
ghost use Rattle.h264_strict.specs.Strict.{with_places};
ghost use Rattle.h264_strict.specs.StrictStarts.{NotesUnit, ended_last, lack_at_end, noted_in};
ghost use Rattle.h264_strict.specs.declared.strict_rule.StrictRule.{StrictRule as Rule};
ghost use Rattle.h264_strict.specs.StrictUnits.{TookBytes, TellsOfBytes};
ghost use Rattle.h264_strict.specs.declared.strict_extent.Extent.TheVariants.{Whole};

use crate::buffer::Lack;
use crate::buffer_units::note_ended;
use crate::sei::after;
use crate::strict::{Places, note_in};
use crate::strict_content::note_bytes;
use crate::strict_extent::{Extent, extent_after, extent_of};
use crate::strict_rule::{STRICT_RULES, StrictRule};
use crate::strict_starts::{UnitsBefore, UnitsNoted};
use h264_base::Stop;
use h264_units::{NalUnit, Splitter};
use std::alloc::Global;

/// Cuts bytes into units, and looks at their start codes, and at the bytes that the verdict passes over.
#[derive(Drop)]
pub struct UnitReader {
    alloc: Global,
    splitter: Splitter,
    noted: UnitsNoted,
    /// How far they were looked at so far.
    extent: Extent,
    ghost runs: { IsFalse splitter.waiting × IsFalse splitter.ended },
}

/// What was found in bytes.
#[derive(Clone, Copy)]
pub struct UnitsRead {
    /// What was found of each rule, by its place.
    pub found: [Option<Places>; STRICT_RULES],
    /// How far the units were looked at.
    pub extent: Extent,
    /// Why the coded picture buffer is not followed to the end, if it is not.
    pub lack: Option<Lack>,
}

impl UnitsRead {
    /// Where a rule is broken, if it is.
    pub fn places(&self, rule: StrictRule) -> Option<Places>
        ensures { result ≡ noted_in self.now.found rule }
    {
        self.found[rule.place()]
    }
}

/// Notes a unit, and what it breaks. The one error is `Stop::Memory`, after which nothing has changed.
fn note_unit(alloc: Global, noted: &mut UnitsNoted, unit: &NalUnit) -> Result<(), Stop>
    ensures noted { OnOk result (NotesUnit noted.old unit.now noted.new) }
    ensures unnoted { OnErr result (noted.new ≡ noted.old) }
    ensures err { IfErr result (λ e. e ≡ Stop.Memory) }
{
    let told = note_bytes(alloc, &mut noted.found, &noted.before.set, unit)?;
    let zero_byte = noted.before.by_zero_byte(unit);
    let pic_type = noted.before.by_pic_type(unit);
    let bit = 8 * unit.from();
    note_in(&mut noted.found, zero_byte, bit);
    note_in(&mut noted.found, pic_type, bit);
    let came = noted.before.came(unit, told.times);
    note_ended(&mut noted.found, came.ended);
    noted.before = noted.before.after(unit, told.set, came.buffer);
    Ok(())
}

/// What was found where each unit was noted, and the last access unit has ended.
fn read_whole(noted: UnitsNoted) -> UnitsRead
    ensures extent { result.extent ≡ Whole }
    ensures lack { result.lack ≡ lack_at_end noted.before }
    ensures found { (rule : Rule) → noted_in result.found rule ≡ with_places (noted_in noted.found rule) (ended_bits rule (ended_last noted.before)) }
{
    let mut found = noted.found;
    let ended = noted.before.ended();
    note_ended(&mut found, ended);
    UnitsRead {
        found,
        extent: Extent::Whole,
        lack: noted.before.buffer.watches_after(ended).lack(),
    }
}

impl UnitReader {
    /// A reader before the first byte. It takes no memory.
    pub fn new(alloc: Global) -> UnitReader
        ensures { TookBytes result.splitter result.extent result.noted [] }
    {
        UnitReader {
            alloc,
            splitter: Splitter::new(alloc),
            noted: UnitsNoted {
                found: [None; STRICT_RULES],
                before: UnitsBefore::new(),
            },
            extent: Extent::Whole,
        }
    }

    /// Takes bytes up to the end of a unit, looks at the unit, and says how many bytes it took: all where it can't cut them into units.
    fn take_some(&mut self, piece: &[u8]) -> usize
        requires some { 0 < length piece.now }
        requires goes { self.old.extent ≡ Whole }
        ensures within { result ≤ length piece.now }
        ensures some { 0 < result }
        ensures took { (before : List ℕ) → TookBytes self.old.splitter self.old.extent self.old.noted before →
            TookBytes self.new.splitter self.new.extent self.new.noted (before ++ take result piece.now) }
    {
        let n = match self.splitter.push(piece) {
            Ok(n) => n,
            Err(stop) => {
                self.extent = extent_after(stop);
                return piece.len();
            }
        };
        match self.splitter.take_unit() {
            None => n,
            Some(unit) => {
                let looked = note_unit(self.alloc, &mut self.noted, &unit);
                self.extent = extent_of(looked);
                n
            }
        }
    }

    /// Takes bytes, and looks at each unit that they end.
    pub fn take(&mut self, piece: &[u8])
        ensures { (before : List ℕ) → TookBytes self.old.splitter self.old.extent self.old.noted before →
            TookBytes self.new.splitter self.new.extent self.new.noted (before ++ piece.now) }
    {
        let mut rest = piece;
        while self.extent.is_whole() && !rest.is_empty() {
            let n = self.take_some(rest);
            rest = after(rest, n);
        }
    }

    /// What was found so far, where the bytes may go on. The last unit may go on too, and is not looked at.
    pub fn break_off(self) -> UnitsRead
        ensures { (bytes : List ℕ) → TookBytes self.splitter self.extent self.noted bytes → TellsOfBytes result.extent false result.found result.lack bytes }
    {
        let lack = self.noted.before.buffer.watches.lack();
        let found = self.noted.found;
        UnitsRead {
            found,
            extent: self.extent.cut_off(),
            lack,
        }
    }

    /// Looks at the last unit: no more bytes come.
    pub fn finish(mut self) -> UnitsRead
        ensures { (bytes : List ℕ) → TookBytes self.splitter self.extent self.noted bytes → TellsOfBytes result.extent true result.found result.lack bytes }
    {
        let mut noted = self.noted;
        let found = noted.found;
        let extent = self.extent;
        let lack = noted.before.buffer.watches.lack();
        if !extent.is_whole() {
            return UnitsRead {
                found,
                extent,
                lack,
            };
        }
        match self.splitter.finish() {
            Ok(()) => {}
            Err(stop) => {
                return UnitsRead {
                    found,
                    extent: extent_after(stop),
                    lack,
                };
            }
        }
        match self.splitter.take_unit() {
            None => read_whole(noted),
            Some(unit) => match note_unit(self.alloc, &mut noted, &unit) {
                Ok(()) => read_whole(noted),
                Err(_) => UnitsRead {
                    found: noted.found,
                    extent: Extent::Memory,
                    lack,
                },
            },
        }
    }
}
