//! The last elements that were read.
#![tactic(auto)]

ghost use Rattle.std.specs.Prelude.{◌≡◌, ◌++◌, ◌∷◌, [], IfOk, OnOk, string_bytes};
ghost use Rattle.circular_buffer.specs.Buffer.{keep_last};
ghost use Rattle.h264_lines.specs.Lines.{element_text};
ghost use Rattle.h264_lines.specs.Told.{ended};
ghost use Rattle.h264_lines.specs.Trail.{element_lines};

use crate::lines::element_line;
use h264_base::ElementName;
use std::alloc::{AllocError, Global};
use std::marker::Model;

/// A syntax element that was read.
#[derive(Clone, Copy)]
pub struct Element {
    pub name: ElementName,
    /// The stream bit where it begins.
    pub bit: u64,
    pub value: i64,
}

/// How many elements a trail keeps.
const KEPT: usize = 16;

/// The last 16 elements of those that it was told.
#[derive(Drop)]
pub struct Trail {
    /// The elements. Once there are 16, the oldest stands at `next`, and the newest before it.
    elements: Vec<Element>,
    /// Where an element goes once there are 16; until then 0.
    next: usize,
}

impl Model for Trail {
    ghost use Rattle.std.specs.Prelude.{List, ◌++◌, drop, take};
    ghost use Rattle.h264_lines.specs.declared.trail.Element.{Element};
    ghost use Rattle.h264_lines.specs.Turned.{IsTurned};

    ghost Value = { List Element };

    ghost view = { λ t. drop t.next t.elements.items ++ take t.next t.elements.items };

    ghost invariant = { λ t. IsTurned t.elements t.next };
}

/// Adds the line of an element and its end, made in `line`. AllocError: there is no memory for them.
fn add_line(lines: &mut String, line: &mut String, element: Element) -> Result<(), AllocError>
    ensures { OnOk result (string_bytes lines.new ≡ string_bytes lines.old ++ ended (element_text element.name element.bit element.value)) }
{
    element_line(line, "", element.name, element.bit, element.value)?;
    lines.push_str(line.as_str())?;
    lines.push('\n')
}

/// Adds the lines of elements, each with its end, made in `line`. AllocError: there is no memory for them.
fn add_lines(lines: &mut String, line: &mut String, elements: &[Element]) -> Result<(), AllocError>
    ensures { OnOk result (string_bytes lines.new ≡ string_bytes lines.old ++ element_lines elements.now) }
{
    for element in elements {
        add_line(lines, line, *element)?;
    }
    Ok(())
}

impl Trail {
    /// A trail of no elements. AllocError: there is no memory for 16.
    pub fn new(alloc: Global) -> Result<Trail, AllocError>
        ensures { IfOk result (λ t. t ≡ []) }
    {
        let elements = Vec::with_capacity(alloc, KEPT)?;
        Ok(Trail { elements, next: 0 })
    }

    /// Takes an element, and lets go of the oldest of 16. Takes no memory.
    #[inline]
    pub fn note(&mut self, name: ElementName, bit: u64, value: i64)
        ensures { self.new ≡ keep_last 16 (self.old ++ record { name = name; bit = bit; value = value } ∷ []) }
    {
        let element = Element { name, bit, value };
        if self.elements.len() < KEPT {
            self.elements.push_reserved(element);
            return;
        }
        self.elements[self.next] = element;
        self.next = (self.next + 1) % KEPT;
    }

    /// Their lines, the oldest first, each with its end. AllocError: there is no memory for them.
    pub fn lines(&self, alloc: Global) -> Result<String, AllocError>
        ensures { IfOk result (λ s. string_bytes s ≡ element_lines self.now) }
    {
        let mut lines = String::new(alloc);
        let mut line = String::new(alloc);
        let (newer, older) = self.elements.split_at(self.next);
        add_lines(&mut lines, &mut line, older)?;
        add_lines(&mut lines, &mut line, newer)?;
        Ok(lines)
    }
}
