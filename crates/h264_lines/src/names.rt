//! Names of files, and other words, as they stand in lines.
#![tactic(auto)]

ghost use Rattle.std.specs.Prelude.{◌≡◌, ◌<◌, ◌++◌, All, IfOk, OnOk, string_bytes};
ghost use Rattle.std.specs.Char.{digit_char};
ghost use Rattle.h264_lines.specs.Names.{IsSeen, hex_byte, shown_above, shown_byte, shown_character, shown};

use std::alloc::{AllocError, Global};

/// A hexadecimal digit, in small letters.
fn digit(n: u8) -> char
    requires { n < 16 }
    ensures { result ≡ digit_char n }
{
    if n < 10 {
        (b'0' + n) as char
    } else {
        (b'a' - 10 + n) as char
    }
}

/// Adds the two hexadecimal digits of a byte. AllocError: there is no memory for them; one of them may have been added.
pub fn put_hex(out: &mut String, byte: u8) -> Result<(), AllocError>
    ensures { OnOk result (string_bytes out.new ≡ string_bytes out.old ++ hex_byte byte) }
{
    out.push(digit(byte / 16))?;
    out.push(digit(byte % 16))
}

/// Adds a byte as `\x` and its two hexadecimal digits. AllocError: there is no memory for it; a part of it may have been added.
fn put_byte(out: &mut String, byte: u8) -> Result<(), AllocError>
    ensures { OnOk result (string_bytes out.new ≡ string_bytes out.old ++ shown_byte byte) }
{
    out.push_str("\\x")?;
    put_hex(out, byte)
}

/// Adds a control character above ASCII, by its two bytes. AllocError: there is no memory for it; a part of it may have been added.
fn put_two_bytes(out: &mut String, c: char) -> Result<(), AllocError>
    requires { c < 160 }
    ensures { OnOk result (string_bytes out.new ≡ string_bytes out.old ++ shown_above c) }
{
    put_byte(out, 0xC2)?;
    put_byte(out, c as u8)
}

/// Adds a character of a name. AllocError: there is no memory for it; a part of it may have been added.
fn put_character(out: &mut String, c: char) -> Result<(), AllocError>
    ensures { OnOk result (string_bytes out.new ≡ string_bytes out.old ++ shown_character c) }
{
    if c == '\\' {
        return out.push_str("\\\\");
    }
    if c == '\n' {
        return out.push_str("\\n");
    }
    if c == '\0' {
        return out.push_str("\\x");
    }
    if c < ' ' || c == '\x7F' {
        return put_byte(out, c as u8);
    }
    if '\u{80}' <= c && c < '\u{A0}' {
        return put_two_bytes(out, c);
    }
    out.push(c)
}

/// A name as it stands in a line: a backslash as `\\`, a line end as `\n`, each other control character by its bytes, as `\x1b`. A byte that is no part of
/// UTF-8, which stands in a word as U+0000 and its two hexadecimal digits, is `\x` and these. AllocError: there is no memory for it.
pub fn shown(alloc: Global, name: &str) -> Result<String, AllocError>
    ensures text { IfOk result (λ s. string_bytes s ≡ shown name.now) }
    ensures seen { IfOk result (λ s. All IsSeen (string_bytes s)) }
{
    let mut out = String::new(alloc);
    for c in name.chars() {
        put_character(&mut out, c)?;
    }
    Ok(out)
}
