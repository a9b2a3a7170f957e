//! A text that is made piece by piece.
#![tactic(auto)]

ghost use Rattle.std.specs.Prelude.{◌≡◌, ◌++◌, [], true, false, codes};
ghost use Rattle.std.specs.Char.{encode_utf8};
ghost use Rattle.std.specs.Fmt.{decimal, signed_decimal};
ghost use Rattle.h264_pages.specs.Pages as pages;
ghost use Rattle.h264_pages.specs.Html as html;
ghost use Rattle.h264_pages.specs.Pages.{text_on, is_cut, Adds};

use crate::json::put_escaped_character;
use std::alloc::Global;

/// A text that grows at its end. Once memory was wanting it is a part of what it should be, and says so.
#[derive(Drop)]
pub struct Page {
    text: String,
    is_short: bool,
}

impl Page {
    /// A page of no text.
    pub fn new(alloc: Global) -> Page
        ensures blank { text_on result ≡ [] }
        ensures whole { is_cut result ≡ false }
    {
        Page {
            text: String::new(alloc),
            is_short: false,
        }
    }

    /// Whether memory was wanting.
    pub fn is_short(&self) -> bool
        ensures { result ≡ is_cut self.now }
    {
        self.is_short
    }

    /// Notes that memory was wanting for what was to come.
    pub fn give_up(&mut self)
        ensures { is_cut self.new ≡ true }
    {
        self.is_short = true;
    }

    /// The text.
    pub fn as_str(&self) -> &str
        ensures { result.now ≡ text_on self.now }
    {
        self.text.as_str()
    }

    /// Adds a text.
    pub fn put(&mut self, text: &str)
        ensures { Adds self.old self.new text.now }
    {
        if self.text.push_str(text).is_err() {
            self.is_short = true;
        }
    }

    /// Adds a text of lines, with this text before each of them.
    pub fn put_lines(&mut self, prefix: &str, text: &str)
        ensures { Adds self.old self.new (pages.prefixed prefix.now text.now) }
    {
        let mut before = '\n';
        for c in text.chars() {
            if before == '\n' {
                self.put(prefix);
            }
            self.character(c);
            before = c;
        }
    }

    /// Adds a number.
    pub fn number(&mut self, value: u64)
        ensures { Adds self.old self.new (decimal value) }
    {
        if write!(self.text, "{value}").is_err() {
            self.is_short = true;
        }
    }

    /// Adds a number that may be negative.
    pub fn signed(&mut self, value: i64)
        ensures { Adds self.old self.new (signed_decimal value) }
    {
        if write!(self.text, "{value}").is_err() {
            self.is_short = true;
        }
    }

    /// Adds a number after a text.
    pub fn numbered(&mut self, before: &str, number: u64)
        ensures { Adds self.old self.new (pages.numbered before.now number) }
    {
        self.put(before);
        self.number(number);
    }

    /// Adds a number after a text, where there is one.
    pub fn number_after(&mut self, before: &str, value: Option<u64>)
        ensures { Adds self.old self.new (pages.number_after before.now value) }
    {
        if let Some(number) = value {
            self.numbered(before, number);
        }
    }

    /// Adds a number with three decimals: so many thousandths.
    pub fn thousandths(&mut self, value: u64)
        ensures { Adds self.old self.new (pages.thousandths value) }
    {
        let whole = value / 1000;
        let rest = value % 1000;
        if write!(self.text, "{whole}.{rest:03}").is_err() {
            self.is_short = true;
        }
    }

    /// Adds a character.
    pub fn character(&mut self, c: char)
        ensures { Adds self.old self.new (encode_utf8 c) }
    {
        if self.text.push(c).is_err() {
            self.is_short = true;
        }
    }

    /// Adds a text as a string of JSON, between its quotation marks (RFC 8259, 7).
    pub fn quoted(&mut self, text: &str)
        ensures { Adds self.old self.new (pages.quoted text.now) }
    {
        self.put("\"");
        for c in text.chars() {
            if put_escaped_character(&mut self.text, c).is_err() {
                self.is_short = true;
            }
        }
        self.put("\"");
    }

    /// Adds a text as HTML writes it between tags and in attributes.
    pub fn escaped(&mut self, text: &str)
        ensures { Adds self.old self.new (html.escaped text.now) }
    {
        for c in text.chars() {
            match c {
                '&' => self.put("&amp;"),
                '<' => self.put("&lt;"),
                '>' => self.put("&gt;"),
                '"' => self.put("&quot;"),
                _ => self.character(c),
            }
        }
    }

    /// Adds the name of a field of JSON, with a comma before it.
    pub fn name(&mut self, name: &str)
        ensures { Adds self.old self.new (pages.named name.now) }
    {
        self.put(",");
        self.quoted(name);
        self.put(":");
    }

    /// Adds a field of JSON that is a number.
    pub fn number_field(&mut self, name: &str, value: u64)
        ensures { Adds self.old self.new (pages.number_field name.now value) }
    {
        self.name(name);
        self.number(value);
    }

    /// Adds a field of JSON that is a number which may be negative.
    pub fn signed_field(&mut self, name: &str, value: i64)
        ensures { Adds self.old self.new (pages.signed_field name.now value) }
    {
        self.name(name);
        self.signed(value);
    }

    /// Adds a field of JSON that is a text.
    pub fn text_field(&mut self, name: &str, value: &str)
        ensures { Adds self.old self.new (pages.text_field name.now value.now) }
    {
        self.name(name);
        self.quoted(value);
    }

    /// Adds a field of JSON that is true or false.
    pub fn bool_field(&mut self, name: &str, value: bool)
        ensures { Adds self.old self.new (pages.bool_field name.now value) }
    {
        self.name(name);
        self.put(if value { "true" } else { "false" });
    }

    /// Adds a field of JSON that is a number, where there is one.
    pub fn maybe_field(&mut self, name: &str, value: Option<u64>)
        ensures { Adds self.old self.new (pages.maybe_field name.now value) }
    {
        if let Some(value) = value {
            self.number_field(name, value);
        }
    }

    /// Begins an object of JSON with its file.
    pub fn begin_object(&mut self, file: &str)
        ensures { Adds self.old self.new (codes "{\"file\":" ++ pages.quoted file.now) }
    {
        self.put("{\"file\":");
        self.quoted(file);
    }

    /// Begins an object of JSON with its file and its kind.
    pub fn open_object(&mut self, file: &str, kind: &str)
        ensures { Adds self.old self.new ((codes "{\"file\":" ++ pages.quoted file.now) ++ pages.text_field (codes "kind") kind.now) }
    {
        self.begin_object(file);
        self.text_field("kind", kind);
    }

    /// Ends an object of JSON, and its line.
    pub fn close_object(&mut self)
        ensures { Adds self.old self.new (codes "}\n") }
    {
        self.put("}\n");
    }
}
