ghost use Rattle.std.specs.Prelude.{◌≡◌, ℕ, ◌+◌, ◌≤◌, get_or};
ghost use Rattle.h264_recon.specs.Predicted.{pcm_of};
ghost use Rattle.h264_recon.specs.Table.{table};

use crate::store::Samples;

/// The luma samples of an I_PCM macroblock.
#[inline(never)]
fn luma(samples: &[u8; 384]) -> [u8; 256]
    ensures { result ≡ (pcm_of samples.now).y }
{
    let mut out = [0; 256];
    for k in 0..256 {
        out[k] = samples[k];
    }
    out
}

/// 64 samples from a place on.
#[inline(never)]
fn from(samples: &[u8; 384], start: usize) -> [u8; 64]
    requires { start ≤ 320 }
    ensures { result ≡ table 64 (λ k. get_or samples.now (start + k) 0) }
{
    let mut out = [0; 64];
    for k in 0..64 {
        out[k] = samples[start + k];
    }
    out
}

/// Writes the samples of an I_PCM macroblock. A function of its own, so that other macroblocks clear nothing for it.
#[tactic(auto, unfolding(crate::specs::Predicted::pcm_of))]
#[inline(never)]
pub fn put(samples: &[u8; 384], own: &mut Samples)
    ensures y { own.new.y ≡ (pcm_of samples.now).y }
    ensures cb { own.new.cb ≡ (pcm_of samples.now).cb }
    ensures cr { own.new.cr ≡ (pcm_of samples.now).cr }
{
    own.y = luma(samples);
    own.cb = from(samples, 256);
    own.cr = from(samples, 320);
}
