//! Sinks of elements.
#![tactic(auto)]

ghost use Rattle.std.specs.Prelude.{◌≡◌};

use h264_base::{ElementName, Elements, Failed};

/// Takes any element. Keeps the last one, and how many there were.
#[derive(Drop)]
pub struct Heard {
    pub count: u32,
    pub bit: u64,
    pub value: i64,
}

impl Heard {
    /// Nothing yet.
    pub fn nothing() -> Heard {
        Heard {
            count: 0,
            bit: 0,
            value: 0,
        }
    }
}

impl Elements for Heard {
    ghost took = { λ _ _. Unit {0} };

    ghost failures = { λ _. 0 };

    fn element(&mut self, _name: ElementName, bit: u64, value: i64) -> Result<(), Failed> {
        self.count = self.count.saturating_add(1);
        self.bit = bit;
        self.value = value;
        Ok(())
    }
}

/// Keeps up to 16 elements, and refuses those after so many.
#[derive(Drop)]
pub struct Told {
    elements: [(ElementName, u64, i64); 16],
    count: usize,
    most: usize,
    pub failed: u64,
}

impl Elements for Told {
    ghost took = { λ _ _. Unit {0} };

    ghost failures = { λ s. s.failed };

    fn element(&mut self, name: ElementName, bit: u64, value: i64) -> Result<(), Failed> {
        if self.count >= self.most || self.count >= 16 {
            self.failed += 1;
            return Err(Failed);
        }
        self.elements[self.count] = (name, bit, value);
        self.count += 1;
        Ok(())
    }
}

impl Told {
    /// Takes so many elements.
    pub fn taking(most: usize) -> Told
        ensures { result.failed ≡ 0 }
    {
        Told {
            elements: [(ElementName::MbType, 0, 0); 16],
            count: 0,
            most,
            failed: 0,
        }
    }

    /// What was told.
    pub fn elements(&self) -> &[(ElementName, u64, i64)] {
        &self.elements[..self.count.min(16)]
    }
}
