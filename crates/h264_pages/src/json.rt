//! Texts within strings of JSON.
#![tactic(auto)]

ghost use Rattle.std.specs.Prelude.{◌≡◌, ◌<◌, ◌++◌, IfOk, OnOk, string_bytes};
ghost use Rattle.h264_pages.specs.Json.{control, escaped_character, escaped};

use h264_lines::put_hex;
use std::alloc::{AllocError, Global};

/// Adds a control character by its code. AllocError: there is no memory for it; a part of it may have been added.
fn put_control(out: &mut String, c: char) -> Result<(), AllocError>
    requires { c < 32 }
    ensures { OnOk result (string_bytes out.new ≡ string_bytes out.old ++ control c) }
{
    out.push_str("\\u00")?;
    put_hex(out, c as u8)
}

/// Adds a character as it stands within a string of JSON (RFC 8259, 7). AllocError: there is no memory for it; a part of it may have been added.
pub fn put_escaped_character(out: &mut String, c: char) -> Result<(), AllocError>
    ensures { OnOk result (string_bytes out.new ≡ string_bytes out.old ++ escaped_character c) }
{
    if c == '"' {
        return out.push_str("\\\"");
    }
    if c == '\\' {
        return out.push_str("\\\\");
    }
    if c < ' ' {
        return put_control(out, c);
    }
    out.push(c)
}

/// A text as it stands within a string of JSON, between the quotation marks (RFC 8259, 7). AllocError: there is no memory for it.
pub fn escaped(alloc: Global, text: &str) -> Result<String, AllocError>
    ensures { IfOk result (λ s. string_bytes s ≡ escaped text.now) }
{
    let mut out = String::new(alloc);
    for c in text.chars() {
        put_escaped_character(&mut out, c)?;
    }
    Ok(out)
}
