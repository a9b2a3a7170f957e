//! What is told of an answer: its status, and what a sink makes of it.
#![tactic(auto)]

ghost use Rattle.std.specs.Prelude.{◌≡◌};
ghost use Rattle.h264_lines.specs.Answer.{told_of, answer_status};

use h264_base::{Stop, Summary};

/// The exit status of an answer.
pub fn answer_status(answer: Result<Summary, Stop>) -> u8
    ensures { result ≡ answer_status answer }
{
    match answer {
        Ok(_) => 0,
        Err(Stop::No { .. }) => 1,
        Err(Stop::Outside { .. }) => 2,
        Err(Stop::Memory) => 3,
        Err(Stop::Read) => 4,
        Err(Stop::Write) => 4,
    }
}

/// The answer that is told: that a write failed, where a sink broke off; where it did not, a call of it that failed was for want of memory.
pub fn told_answer(answer: Result<Summary, Stop>, broke_off: bool) -> Result<Summary, Stop>
    ensures { result ≡ told_of broke_off answer }
{
    if broke_off {
        return Err(Stop::Write);
    }
    match answer {
        Ok(summary) => Ok(summary),
        Err(Stop::No { bit, rule }) => Err(Stop::No { bit, rule }),
        Err(Stop::Outside { bit, feature }) => Err(Stop::Outside { bit, feature }),
        Err(Stop::Read) => Err(Stop::Read),
        Err(Stop::Memory) => Err(Stop::Memory),
        Err(Stop::Write) => Err(Stop::Memory),
    }
}
