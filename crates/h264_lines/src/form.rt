//! How the calls of a stream are written.
#![tactic(auto)]

/// How a `LineSink` writes the calls of a stream.
#[derive(Clone, Copy)]
pub enum Form<'a> {
    /// Lines of text. Each begins with this text, which may be empty.
    Lines(&'a str),
    /// Objects of JSON, a line each. Each begins with this text, which opens it and has its first fields.
    Objects(&'a str),
}
