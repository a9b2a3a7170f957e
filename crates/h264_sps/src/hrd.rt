//! What a hypothetical reference decoder is given (E.1.2).
#![tactic(auto)]

ghost use Rattle.std.specs.Prelude.{◌≡◌, ℕ, ◌+◌, ◌-◌, ◌<◌, ◌≤◌, ◌^◌, []};
ghost use Rattle.h264_base.specs.Call.{HasRoom, span};
ghost use Rattle.h264_base.specs.Meets.{Meets, Is};
ghost use Rattle.h264_bits.specs.Forms.{repeated};
ghost use Rattle.h264_sps.specs.Hrd.{cpb, cpbs_of, hrd};

use h264_base::{ElementName, Elements, Stop};
use h264_bits::Bits;
use h264_bits::forms::{flag_value, u_values, ue_up_to, ue_values};

/// One coded picture buffer.
#[derive(Clone, Copy, PartialEq)]
pub struct Cpb {
    pub bit_rate_value_minus1: u32,
    pub cpb_size_value_minus1: u32,
    pub cbr_flag: bool,
}

/// Coded picture buffers: `count` of them, and zeros after them.
#[derive(Clone, Copy, PartialEq)]
pub struct Cpbs {
    pub entries: [Cpb; 32],
    /// 1 to 32.
    pub count: u32,
}

/// HRD parameters. They are kept, and not judged.
#[derive(Clone, Copy, PartialEq)]
pub struct Hrd {
    pub bit_rate_scale: u32,
    pub cpb_size_scale: u32,
    pub cpbs: Cpbs,
    pub initial_cpb_removal_delay_length_minus1: u32,
    pub cpb_removal_delay_length_minus1: u32,
    pub dpb_output_delay_length_minus1: u32,
    pub time_offset_length: u32,
}

/// One buffer.
fn read_cpb<S: Elements>(bits: &mut Bits, sink: &mut S) -> Result<Cpb, Stop>
    requires { HasRoom S.failures sink.old }
    ensures { Meets (span S.took S.failures sink.old sink.new) (Is (λ x. x)) cpb bits.old bits.new result }
{
    let names = [
        ElementName::BitRateValueMinus1,
        ElementName::CpbSizeValueMinus1,
    ];
    let [bit_rate, size] = ue_values::<2, S>(bits, names, sink)?;
    let constant = flag_value(bits, ElementName::CbrFlag, sink)?;
    Ok(Cpb {
        bit_rate_value_minus1: bit_rate,
        cpb_size_value_minus1: size,
        cbr_flag: constant,
    })
}

/// The buffers, of which there are `count`.
fn read_cpbs<S: Elements>(count: u32, bits: &mut Bits, sink: &mut S) -> Result<Cpbs, Stop>
    requires few { count ≤ 32 }
    requires room { HasRoom S.failures sink.old }
    ensures { Meets (span S.took S.failures sink.old sink.new) (λ x l. x ≡ cpbs_of l) (repeated cpb [] count) bits.old bits.new result }
{
    let none = Cpb {
        bit_rate_value_minus1: 0,
        cpb_size_value_minus1: 0,
        cbr_flag: false,
    };
    let mut entries = [none; 32];
    for i in 0..count as usize {
        let next = read_cpb(bits, sink)?;
        entries[i] = next;
    }
    Ok(Cpbs { entries, count })
}

/// hrd_parameters().
pub(crate) fn read_hrd<S: Elements>(bits: &mut Bits, sink: &mut S) -> Result<Hrd, Stop>
    requires { HasRoom S.failures sink.old }
    ensures { Meets (span S.took S.failures sink.old sink.new) (Is (λ x. x)) hrd bits.old bits.new result }
{
    let count_minus1 = ue_up_to(bits, ElementName::CpbCntMinus1, 31, sink)?;
    let scales = [ElementName::BitRateScale, ElementName::CpbSizeScale];
    let [bit_rate, size] = u_values::<4, 2, S>(bits, scales, sink)?;
    let cpbs = read_cpbs(count_minus1 + 1, bits, sink)?;
    let lengths = [
        ElementName::InitialCpbRemovalDelayLengthMinus1,
        ElementName::CpbRemovalDelayLengthMinus1,
        ElementName::DpbOutputDelayLengthMinus1,
        ElementName::TimeOffsetLength,
    ];
    let [initial, removal, output, offset] = u_values::<5, 4, S>(bits, lengths, sink)?;
    Ok(Hrd {
        bit_rate_scale: bit_rate,
        cpb_size_scale: size,
        cpbs,
        initial_cpb_removal_delay_length_minus1: initial,
        cpb_removal_delay_length_minus1: removal,
        dpb_output_delay_length_minus1: output,
        time_offset_length: offset,
    })
}
