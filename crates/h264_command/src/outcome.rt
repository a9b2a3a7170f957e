//! What comes of the words.
#![tactic(auto)]

use h264_words::command_line::Wanted;

/// What comes of the words of a command line.
#[derive(Drop)]
pub enum Outcome<'a> {
    /// They ask for nothing: the exit status.
    Fault(u8),
    /// A FILE of this name was judged: the exit status.
    Done(&'a str, u8),
    /// They ask for more than a judgement of one FILE, and nothing is done yet.
    More(Wanted<'a>),
}
