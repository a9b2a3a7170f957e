//! Who is told how far a judgement has come.
#![tactic(auto)]

/// Is told, unit by unit, how far a judgement has come.
pub trait Meter {
    /// Whether it was told that the judgement has ended.
    ghost has_ended: { Self → Type 0 } = { λ _. Unit {0} };

    /// The byte where the newest unit begins, and how many pictures were begun before it.
    fn note(&mut self, byte: u64, pictures: u64);

    /// The last of it: the byte after the newest unit, and all pictures.
    fn end(&mut self, byte: u64, pictures: u64)
        ensures ended { has_ended self.new };
}

/// Passes over what it is told.
#[derive(Clone, Copy)]
pub struct NoMeter;

impl Meter for NoMeter {
    fn note(&mut self, _byte: u64, _pictures: u64) {}

    fn end(&mut self, _byte: u64, _pictures: u64) {}
}
