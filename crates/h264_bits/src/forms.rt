//! Forms of elements that many syntax structures share: a value with the rule on its range.
//!
//! Each reads one element, tells it to the sink, and answers its value, or the rule that it breaks at its first bit.
#![tactic(auto)]

ghost use Rattle.std.specs.Prelude.{◌≡◌, ℕ, ◌-◌, ◌<◌, ◌≤◌, ◌≤ℤ◌, ◌^◌, [], IfOk};
ghost use Rattle.h264_base.specs.Call.{HasRoom, span};
ghost use Rattle.h264_base.specs.Meets.{Meets, Is};
ghost use Rattle.h264_bits.specs.Forms.{bits as bits_form, unsigned, flag, unsigned_to, signed, signed_within, bits_must_be, unsigned_must_be_0, each};

use crate::{Bits, check, read_se, read_u, read_ue};
use h264_base::{ElementName, Elements, Rule, Stop};

/// Reads u(N): its value.
pub fn u_value<const N: u32, S: Elements>(
    bits: &mut Bits,
    name: ElementName,
    sink: &mut S,
) -> Result<u32, Stop>
    requires width { N ≤ 32 }
    requires room { HasRoom S.failures sink.old }
    ensures meets { Meets (span S.took S.failures sink.old sink.new) (Is (λ x. x)) (bits_form name N) bits.old bits.new result }
    ensures small { IfOk result (λ v. v < 2 ^ N) }
{
    let number = read_u::<N, S>(bits, name, sink)?;
    Ok(number.value)
}

/// Reads u(N) under each name in turn: the values in the order of the names.
pub fn u_values<const N: u32, const K: usize, S: Elements>(
    bits: &mut Bits,
    names: [ElementName; K],
    sink: &mut S,
) -> Result<[u32; K], Stop>
    requires width { N ≤ 32 }
    requires room { HasRoom S.failures sink.old }
    ensures { Meets (span S.took S.failures sink.old sink.new) (Is (λ x. x)) (each (λ name. bits_form name N) [] names.entry) bits.old bits.new result }
{
    let mut values = [0; K];
    for i in 0..K {
        let value = u_value::<N, S>(bits, names[i], sink)?;
        values[i] = value;
    }
    Ok(values)
}

/// Reads a flag, u(1): whether it is 1.
pub fn flag_value<S: Elements>(
    bits: &mut Bits,
    name: ElementName,
    sink: &mut S,
) -> Result<bool, Stop>
    requires { HasRoom S.failures sink.old }
    ensures { Meets (span S.took S.failures sink.old sink.new) (Is (λ x. x)) (flag name) bits.old bits.new result }
{
    let found = read_u::<1, S>(bits, name, sink)?;
    Ok(found.value == 1)
}

/// Reads ue(v): its value.
pub fn ue_value<S: Elements>(bits: &mut Bits, name: ElementName, sink: &mut S) -> Result<u32, Stop>
    requires { HasRoom S.failures sink.old }
    ensures { Meets (span S.took S.failures sink.old sink.new) (Is (λ x. x)) (unsigned name) bits.old bits.new result }
{
    let code_num = read_ue(bits, name, sink)?;
    Ok(code_num.value)
}

/// Reads ue(v) under each name in turn: the values in the order of the names.
pub fn ue_values<const K: usize, S: Elements>(
    bits: &mut Bits,
    names: [ElementName; K],
    sink: &mut S,
) -> Result<[u32; K], Stop>
    requires { HasRoom S.failures sink.old }
    ensures { Meets (span S.took S.failures sink.old sink.new) (Is (λ x. x)) (each unsigned [] names.entry) bits.old bits.new result }
{
    let mut values = [0; K];
    for i in 0..K {
        let value = ue_value(bits, names[i], sink)?;
        values[i] = value;
    }
    Ok(values)
}

/// Reads ue(v) of at most `max`; a greater value breaks Range.
pub fn ue_up_to<S: Elements>(
    bits: &mut Bits,
    name: ElementName,
    max: u32,
    sink: &mut S,
) -> Result<u32, Stop>
    requires { HasRoom S.failures sink.old }
    ensures meets { Meets (span S.took S.failures sink.old sink.new) (Is (λ x. x)) (unsigned_to name max) bits.old bits.new result }
    ensures within { IfOk result (λ v. v ≤ max) }
{
    let code = read_ue(bits, name, sink)?;
    check(code.value <= max, Rule::Range, code.bit)?;
    Ok(code.value)
}

/// Reads se(v): its value.
pub fn se_value<S: Elements>(bits: &mut Bits, name: ElementName, sink: &mut S) -> Result<i32, Stop>
    requires { HasRoom S.failures sink.old }
    ensures { Meets (span S.took S.failures sink.old sink.new) (Is (λ x. x)) (signed name) bits.old bits.new result }
{
    let signed = read_se(bits, name, sink)?;
    Ok(signed.value)
}

/// Reads se(v) from `min` to `max`; any other value breaks Range.
pub fn se_within<S: Elements>(
    bits: &mut Bits,
    name: ElementName,
    min: i32,
    max: i32,
    sink: &mut S,
) -> Result<i32, Stop>
    requires { HasRoom S.failures sink.old }
    ensures meets { Meets (span S.took S.failures sink.old sink.new) (Is (λ x. x)) (signed_within name min max) bits.old bits.new result }
    ensures low { IfOk result (λ v. min ≤ℤ v) }
    ensures high { IfOk result (λ v. v ≤ℤ max) }
{
    let found = read_se(bits, name, sink)?;
    check(min <= found.value, Rule::Range, found.bit)?;
    check(found.value <= max, Rule::Range, found.bit)?;
    Ok(found.value)
}

/// Reads u(N), which has this value where no tool outside the profile is in use; any other breaks Tool.
pub fn u_must_be<const N: u32, S: Elements>(
    bits: &mut Bits,
    name: ElementName,
    value: u32,
    sink: &mut S,
) -> Result<(), Stop>
    requires width { N ≤ 32 }
    requires room { HasRoom S.failures sink.old }
    ensures { Meets (span S.took S.failures sink.old sink.new) (Is (λ x. x)) (bits_must_be name N value) bits.old bits.new result }
{
    let found = read_u::<N, S>(bits, name, sink)?;
    check(found.value == value, Rule::Tool, found.bit)
}

/// Reads ue(v), which is 0 where no tool outside the profile is in use; any other value breaks Tool.
pub fn ue_must_be_0<S: Elements>(
    bits: &mut Bits,
    name: ElementName,
    sink: &mut S,
) -> Result<(), Stop>
    requires { HasRoom S.failures sink.old }
    ensures { Meets (span S.took S.failures sink.old sink.new) (Is (λ x. x)) (unsigned_must_be_0 name) bits.old bits.new result }
{
    let found = read_ue(bits, name, sink)?;
    check(found.value == 0, Rule::Tool, found.bit)
}
