//! A source whose bytes are looked at by the rules on the bytes of units.
#![tactic(auto)]

ghost use Rattle.std.specs.Prelude.{◌≡◌, ℕ, false, List, []};
ghost use Rattle.h264_strict.specs.StrictUnits.{TookBytes, TellsOfBytes};

use h264_base::Failed;
use h264_strict::strict_units::{UnitReader, UnitsRead};
use h264_verify::Source;
use std::alloc::Global;
use std::marker::{Brand, PhantomData};

/// For proofs alone: the source that another was made to stand round. Whoever runs that picks it, so that it is known to stay.
pub trait Inside {
    ghost use Rattle.std.specs.Prelude.{ℕ};

    /// The reference to the source.
    ghost name: { ℕ };
}

impl Inside for Brand {
    ghost name = { 0 };
}

/// A source that is lent.
#[derive(Drop)]
pub struct Lent<'a, R: Source> {
    pub source: &'a mut R,
}

/// Hands on the bytes of the source inside, and has them read for their units.
#[derive(Drop)]
pub struct UnitSource<'a, R: Source, K: Inside> {
    pub source: &'a mut R,
    pub units: UnitReader,
    /// Whether the source has said that no more bytes come.
    pub has_ended: bool,
    inside: PhantomData<K>,
}

impl<'a, R: Source, K: Inside> UnitSource<'a, R, K> {
    /// A source round this one, before the first byte.
    pub fn new(alloc: Global, lent: Lent<'a, R>) -> UnitSource<'a, R, K>
        ensures source { result.source.now ≡ lent.entry.source.now }
        ensures name { result.source.ghost_name ≡ lent.entry.source.ghost_name }
        ensures units { TookBytes result.units.splitter result.units.extent result.units.noted [] }
        ensures before { result.has_ended ≡ false }
    {
        UnitSource {
            source: lent.source,
            units: UnitReader::new(alloc),
            has_ended: false,
            inside: PhantomData,
        }
    }

    /// The source inside, and what was found in the bytes that were handed on. Where the source did not say its end, the last unit may go on, and is not
    /// looked at.
    pub fn finish(self) -> (Lent<'a, R>, UnitsRead)
        ensures source { result.0.source.now ≡ self.entry.source.now }
        ensures name { result.0.source.ghost_name ≡ self.entry.source.ghost_name }
        ensures units { (bytes : List ℕ) → TookBytes self.entry.units.splitter self.entry.units.extent self.entry.units.noted bytes →
            TellsOfBytes result.1.extent self.entry.has_ended result.1.found result.1.lack bytes }
    {
        let UnitSource {
            source,
            units,
            has_ended,
            ..
        } = self;
        let lent = Lent { source };
        if has_ended {
            return (lent, units.finish());
        }
        (lent, units.break_off())
    }
}

impl<'a, R: Source, K: Inside> Source for UnitSource<'a, R, K> {
    ghost left = { λ s. R.left s.source.now };

    ghost was_read = { λ s n. R.was_read s.source.now n };

    ghost failures = { λ s. R.failures s.source.now };

    ghost gave = { λ s bytes ended. TookBytes s.units.splitter s.units.extent s.units.noted bytes × (s.has_ended ≡ ended)
        × (s.source.ghost_name ≡ K.name) };

    fn read(&mut self, piece: &mut [u8]) -> Result<Option<usize>, Failed> {
        match self.source.read(piece) {
            Ok(Some(n)) => {
                self.has_ended = n == 0;
                self.units.take(&piece[..n]);
                Ok(Some(n))
            }
            Ok(None) => Ok(None),
            Err(Failed) => Err(Failed),
        }
    }
}
