//! The words of tables by their values.
#![tactic(auto)]

ghost use Rattle.std.specs.Prelude.{IfSome, IfNone};
ghost use Rattle.h264_write.specs.Written.{IsWordFor, HasNoValue};

use h264_tables::{CodeWord, Table, code_word};

/// The word of the table that has this value.
pub(crate) fn word_for(table: Table, value: u8) -> Option<CodeWord>
    ensures some { IfSome result (IsWordFor table value) }
    ensures none { IfNone result (HasNoValue table value) }
{
    for i in 0..64 {
        let Some(word) = code_word(table, i) else {
            return None;
        };
        if word.value == value {
            return Some(word);
        }
    }
    None
}
