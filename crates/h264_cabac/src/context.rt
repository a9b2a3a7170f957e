//! The state of a context (9.3.1.1, 9.3.3.2.1.1).
#![tactic(auto)]

ghost use Rattle.std.specs.Prelude.{◌≡◌, ◌+◌, ◌*◌, ◌/◌, ◌%◌, ◌<◌, ◌≤◌};
ghost use Rattle.h264_cabac.specs.Contexts.{clip_1_126, pre_ctx_state};

use crate::states::{range_of_least_probable, state_after_least_probable};

/// pStateIdx of the last state that decisions lead to.
const LAST_STATE: u8 = 62;

/// The greatest SliceQPY.
const GREATEST_QP: u8 = 51;

/// Clip3(1, 126, z).
fn clipped(z: i32) -> u8
    ensures value { result ≡ clip_1_126 z }
    ensures low { 1 ≤ result }
    ensures high { result ≤ 126 }
{
    z.clamp(1, 126) as u8
}

/// preCtxState (9.3.1.1).
fn pre_ctx_state(m: i8, n: i8, slice_qp: u8) -> u8
    ensures value { result ≡ pre_ctx_state m n slice_qp }
    ensures low { 1 ≤ result }
    ensures high { result ≤ 126 }
{
    let qp = slice_qp.min(GREATEST_QP);
    let slope = (m as i32 * qp as i32) >> 4;
    let z = slope + n as i32;
    clipped(z)
}

/// A context: what was learned of the bins that have it.
#[derive(Clone, Copy)]
pub struct Context {
    /// pStateIdx, from 0 to 62: the greater, the less probable is the other value.
    pub p_state_idx: u8,
    /// valMPS, the more probable value of a bin.
    pub val_mps: bool,
    pub ghost in_range: { p_state_idx ≤ 62 },
}

impl Context {
    ghost use Rattle.h264_cabac.specs.Engine.{range_lps, after_most_probable, after_least_probable};
    ghost use Rattle.h264_cabac.specs.Given.{state_of};
    ghost use Rattle.h264_cabac.specs.Contexts.{initial_state, state_from};

    /// The context of a ctxIdx that no element uses.
    pub const UNUSED: Context = Context {
        p_state_idx: 0,
        val_mps: false,
    };

    /// The context that values m and n and SliceQPY give (9.3.1.1).
    #[tactic(auto, unfolding(crate::specs::Contexts::initial_state))]
    pub fn initial(pair: (i8, i8), slice_qp: u8) -> Context
        ensures { state_of result ≡ initial_state pair slice_qp }
    {
        Context::from_pre_ctx_state(pre_ctx_state(pair.0, pair.1, slice_qp))
    }

    /// The context of a preCtxState (9.3.1.1).
    fn from_pre_ctx_state(pre_ctx_state: u8) -> Context
        requires low { 1 ≤ pre_ctx_state }
        requires high { pre_ctx_state ≤ 126 }
        ensures { state_of result ≡ state_from pre_ctx_state }
    {
        if pre_ctx_state <= 63 {
            return Context {
                p_state_idx: 63 - pre_ctx_state,
                val_mps: false,
            };
        }
        Context {
            p_state_idx: pre_ctx_state - 64,
            val_mps: true,
        }
    }

    /// codIRangeLPS at a codIRange (9.3.3.2.1).
    #[inline(always)]
    pub fn range_lps(&self, range: u32) -> u32
        ensures value { result ≡ range_lps (state_of self.now) range }
        ensures some { 2 ≤ result }
        ensures small { result ≤ 240 }
    {
        range_of_least_probable(self.p_state_idx, range / 64 % 4)
    }

    /// The context after a bin of value valMPS (9.3.3.2.1.1).
    #[inline(always)]
    pub fn after_most_probable(&self) -> Context
        ensures { state_of result ≡ after_most_probable (state_of self.now) }
    {
        Context {
            p_state_idx: (self.p_state_idx + 1).min(LAST_STATE),
            val_mps: self.val_mps,
        }
    }

    /// The context after a bin of the other value (9.3.3.2.1.1).
    #[inline(always)]
    pub fn after_least_probable(&self) -> Context
        ensures { state_of result ≡ after_least_probable (state_of self.now) }
    {
        Context {
            p_state_idx: state_after_least_probable(self.p_state_idx),
            val_mps: if self.p_state_idx == 0 {
                !self.val_mps
            } else {
                self.val_mps
            },
        }
    }
}
