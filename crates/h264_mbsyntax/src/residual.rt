//! mb_qp_delta and the blocks of a residual (7.3.5, 7.3.5.3).
#![tactic(auto)]

ghost use Rattle.std.specs.Prelude.{◌≡◌, ℕ, ℤ, pos, neg_ℤ, ◌≤ℤ◌, ◌+ℤ◌, ◌+◌, ◌-◌, ◌*◌, ◌/◌, ◌<◌, ◌≤◌, ◌^◌, List, [], OnOk, IfOk, get_or, take, length};
ghost use Rattle.h264_base.specs.Call.{HasRoom, IsQuiet, span};
ghost use Rattle.h264_base.specs.Meets.{Meets, Is};
ghost use Rattle.h264_bits.specs.Forms.{natural};
ghost use Rattle.h264_cavlc.specs.Block.{Block};
ghost use Rattle.h264_near.specs.Coded.{CodedMacroblock};
ghost use Rattle.h264_near.specs.Keeps.{Keeps};
ghost use Rattle.h264_mbsyntax.specs.Residual as syntax;
ghost use Rattle.h264_mbsyntax.specs.Stored as stored;
ghost use Rattle.h264_mbsyntax.specs.Coded.{HasCoefficients, HasCoefficients16, IsSame, patterned};

use crate::macroblock::Macroblock;
use h264_base::{ElementName, Elements, Rule, Stop};
use h264_bits::{Bits, check, read_se, read_word};
use h264_cavlc::block_into;
use h264_tables::Table;
use h264_vectors::Surroundings;

/// The levels of a macroblock, by block and by place of the scan. A block without coefficients has levels that mean nothing (zeros, or what stood there
/// before): whoever reads them looks at the totals first.
#[derive(Clone, Copy)]
pub struct Residual {
    pub luma_dc_total: u8,
    /// Intra16x16DCLevel.
    pub luma_dc: [i16; 16],
    /// LumaLevel4x4, by block number.
    pub luma: [[i16; 16]; 16],
    /// Intra16x16ACLevel, by block number.
    pub luma_ac: [[i16; 15]; 16],
    pub chroma_dc_totals: [u8; 2],
    /// ChromaDCLevel of Cb and of Cr.
    pub chroma_dc: [[i16; 4]; 2],
    /// ChromaACLevel: four blocks of Cb, then of Cr.
    pub chroma_ac: [[i16; 15]; 8],
}

/// The sum that is QP_Y modulo 52.
#[inline]
fn qp_sum(predicted: u8, delta: i32) -> u32
    requires predicted { predicted ≤ 51 }
    requires low { neg_ℤ (pos 26) ≤ℤ delta }
    requires high { delta ≤ℤ pos 25 }
    ensures { result ≡ natural (pos (predicted + 52) +ℤ delta) }
{
    (predicted as i32 + 52 + delta) as u32
}

/// QP_Y from QP_Y,PRED.
#[tactic(auto, unfolding(crate::specs::Residual::qp_after))]
#[inline]
fn qp_after(predicted: u8, delta: i32) -> u8
    requires predicted { predicted ≤ 51 }
    requires low { neg_ℤ (pos 26) ≤ℤ delta }
    requires high { delta ≤ℤ pos 25 }
    ensures here { result ≡ syntax.qp_after predicted delta }
    ensures within { result ≤ 51 }
{
    (qp_sum(predicted, delta) % 52) as u8
}

/// Reads mb_qp_delta: QP_Y.
pub(crate) fn read_qp_delta<S: Elements>(
    bits: &mut Bits,
    predicted: u8,
    sink: &mut S,
) -> Result<u8, Stop>
    requires predicted { predicted ≤ 51 }
    requires room { HasRoom S.failures sink.old }
    ensures meets { Meets (span S.took S.failures sink.old sink.new) (Is (λ x. x)) (syntax.qp_delta predicted) bits.old bits.new result }
    ensures within { IfOk result (λ q. q ≤ 51) }
{
    let delta = read_se(bits, ElementName::MbQpDelta, sink)?;
    check(-26 <= delta.value, Rule::Range, delta.bit)?;
    check(delta.value <= 25, Rule::Range, delta.bit)?;
    Ok(qp_after(predicted, delta.value))
}

/// Whether the pattern has the bit of a luma block's 8x8 block.
#[tactic(auto, unfolding(crate::specs::Residual::is_coded))]
#[inline]
fn is_coded(pattern: u8, b: usize) -> bool
    requires { b < 16 }
    ensures { result ≡ syntax.is_coded pattern b }
{
    pattern / (1 << (b / 4)) % 2 == 1
}

/// Reads the luma blocks of size `N`, 16 or 15, into the places of their numbers.
pub(crate) fn read_luma<const N: usize, S: Elements>(
    bits: &mut Bits,
    around: Surroundings,
    pattern: u8,
    totals: &mut [u8; 16],
    levels: &mut [[i16; N]; 16],
    sink: &mut S,
) -> Result<(), Stop>
    requires size { N ≤ 16 }
    requires room { HasRoom S.failures sink.old }
    ensures meets { (width : ℕ) (picture : List CodedMacroblock) → Keeps width picture around.entry.near.now →
        Meets (span S.took S.failures sink.old sink.new) (λ _ blocks. stored.Stored N 16 totals.new levels.new blocks)
        (syntax.luma_blocks width picture around.entry.slice.now.number N pattern) bits.old bits.new result }
    ensures sized { length totals.new ≡ 16 }
    ensures quiet { OnOk result (IsQuiet S.failures sink.old sink.new) }
{
    let mut own = bits.again();
    for b in 0..16 {
        if is_coded(pattern, b) {
            let nc = around.near.nc(around.slice.number, totals, b);
            totals[b] = block_into::<N, S>(&mut own, nc, &mut levels[b], sink)?;
        } else {
            totals[b] = 0;
        }
    }
    *bits = own;
    Ok(())
}

/// Reads the DC blocks of Cb and Cr, if they are coded.
fn read_chroma_dc<S: Elements>(
    bits: &mut Bits,
    coded: bool,
    totals: &mut [u8; 2],
    levels: &mut [[i16; 4]; 2],
    sink: &mut S,
) -> Result<(), Stop>
    requires { HasRoom S.failures sink.old }
    ensures { Meets (span S.took S.failures sink.old sink.new) (λ _ blocks. stored.Stored 4 2 totals.new levels.new blocks) (syntax.chroma_dc_if coded)
        bits.old bits.new result }
{
    if !coded {
        *totals = [0; 2];
        return Ok(());
    }
    let mut own = bits.again();
    totals[0] = block_into::<4, S>(&mut own, 0, &mut levels[0], sink)?;
    totals[1] = block_into::<4, S>(&mut own, 0, &mut levels[1], sink)?;
    *bits = own;
    Ok(())
}

/// Reads the AC blocks of Cb and Cr.
fn read_all_ac<S: Elements>(
    bits: &mut Bits,
    around: Surroundings,
    totals: &mut [u8; 8],
    levels: &mut [[i16; 15]; 8],
    sink: &mut S,
) -> Result<(), Stop>
    requires { HasRoom S.failures sink.old }
    ensures meets { (width : ℕ) (picture : List CodedMacroblock) → Keeps width picture around.entry.near.now →
        Meets (span S.took S.failures sink.old sink.new) (λ _ blocks. stored.Stored 15 8 totals.new levels.new blocks)
        (syntax.chroma_blocks width picture around.entry.slice.now.number) bits.old bits.new result }
    ensures quiet { OnOk result (IsQuiet S.failures sink.old sink.new) }
{
    let mut own = bits.again();
    for b in 0..8 {
        let nc = around.near.chroma_nc(around.slice.number, totals, b);
        totals[b] = block_into::<15, S>(&mut own, nc, &mut levels[b], sink)?;
    }
    *bits = own;
    Ok(())
}

/// Reads the chroma blocks by CodedBlockPatternChroma.
fn read_chroma<S: Elements>(
    bits: &mut Bits,
    around: Surroundings,
    pattern: u8,
    totals: &mut [u8; 8],
    residual: &mut Residual,
    sink: &mut S,
) -> Result<(), Stop>
    requires { HasRoom S.failures sink.old }
    ensures meets { (width : ℕ) (picture : List CodedMacroblock) → Keeps width picture around.entry.near.now →
        Meets (span S.took S.failures sink.old sink.new) (λ _ v. stored.StoredChroma totals.new residual.new.chroma_ac residual.new.chroma_dc_totals
        residual.new.chroma_dc v) (syntax.chroma width picture around.entry.slice.now.number pattern) bits.old bits.new result }
    ensures sized { length totals.new ≡ 8 }
    ensures luma { residual.new.luma ≡ residual.old.luma }
    ensures luma_ac { residual.new.luma_ac ≡ residual.old.luma_ac }
    ensures luma_dc { residual.new.luma_dc ≡ residual.old.luma_dc }
    ensures luma_dc_total { residual.new.luma_dc_total ≡ residual.old.luma_dc_total }
    ensures quiet { OnOk result (IsQuiet S.failures sink.old sink.new) }
{
    read_chroma_dc(
        bits,
        0 < pattern,
        &mut residual.chroma_dc_totals,
        &mut residual.chroma_dc,
        sink,
    )?;
    if pattern == 2 {
        return read_all_ac(bits, around, totals, &mut residual.chroma_ac, sink);
    }
    *totals = [0; 8];
    Ok(())
}

/// Makes `mb` one of which no block is coded, and which leaves QP_Y.
fn leave_uncoded(mb: &mut Macroblock, qp: u8)
    ensures none { HasCoefficients mb.new (syntax.no_coefficients qp) }
    ensures qp { mb.new.qp ≡ qp }
    ensures same { IsSame mb.old mb.new }
    ensures luma_dc_total { mb.new.residual.luma_dc_total ≡ mb.old.residual.luma_dc_total }
{
    mb.qp = qp;
    mb.contexts.qp = qp;
    mb.contexts.totals = [0; 16];
    mb.contexts.chroma_totals = [0; 8];
    mb.residual.chroma_dc_totals = [0; 2];
}

/// Reads coded_block_pattern by its table, and mb_qp_delta and the blocks of a macroblock that is not Intra 16x16 if it is not 0.
#[inline]
pub(crate) fn read_coefficients<S: Elements>(
    bits: &mut Bits,
    around: Surroundings,
    predicted_qp: u8,
    table: Table,
    mb: &mut Macroblock,
    sink: &mut S,
) -> Result<(), Stop>
    requires predicted { predicted_qp ≤ 51 }
    requires room { HasRoom S.failures sink.old }
    ensures meets { (width : ℕ) (picture : List CodedMacroblock) → Keeps width picture around.entry.near.now →
        Meets (span S.took S.failures sink.old sink.new) (λ _ v. HasCoefficients mb.new v)
        (patterned table width picture around.entry.slice.now.number predicted_qp) bits.old bits.new result }
    ensures within { OnOk result (mb.new.qp ≤ 51) }
    ensures quiet { OnOk result (IsQuiet S.failures sink.old sink.new) }
    ensures same { IsSame mb.old mb.new }
    ensures luma_dc_total { mb.new.residual.luma_dc_total ≡ mb.old.residual.luma_dc_total }
{
    let pattern = read_word(
        bits,
        Rule::CodeWord,
        ElementName::CodedBlockPattern,
        table,
        sink,
    )?;
    if pattern.value == 0 {
        leave_uncoded(mb, predicted_qp);
        return Ok(());
    }
    let qp = read_qp_delta(bits, predicted_qp, sink)?;
    mb.qp = qp;
    mb.contexts.qp = qp;
    read_luma::<16, S>(
        bits,
        around,
        pattern.value,
        &mut mb.contexts.totals,
        &mut mb.residual.luma,
        sink,
    )?;
    read_chroma(
        bits,
        around,
        pattern.value / 16,
        &mut mb.contexts.chroma_totals,
        &mut mb.residual,
        sink,
    )
}

/// Reads mb_qp_delta and the blocks of an Intra 16x16 macroblock.
pub(crate) fn read_coefficients16<S: Elements>(
    bits: &mut Bits,
    around: Surroundings,
    predicted_qp: u8,
    pattern: u8,
    mb: &mut Macroblock,
    sink: &mut S,
) -> Result<(), Stop>
    requires predicted { predicted_qp ≤ 51 }
    requires room { HasRoom S.failures sink.old }
    ensures meets { (width : ℕ) (picture : List CodedMacroblock) → Keeps width picture around.entry.near.now →
        Meets (span S.took S.failures sink.old sink.new) (λ _ v. HasCoefficients16 mb.new v)
        (syntax.coefficients16 width picture around.entry.slice.now.number predicted_qp pattern) bits.old bits.new result }
    ensures within { OnOk result (mb.new.qp ≤ 51) }
    ensures quiet { OnOk result (IsQuiet S.failures sink.old sink.new) }
    ensures same { IsSame mb.old mb.new }
{
    let qp = read_qp_delta(bits, predicted_qp, sink)?;
    mb.qp = qp;
    mb.contexts.qp = qp;
    let nc = around.near.nc(around.slice.number, &[0; 16], 0);
    let total = block_into::<16, S>(bits, nc, &mut mb.residual.luma_dc, sink)?;
    mb.residual.luma_dc_total = total;
    read_luma::<15, S>(
        bits,
        around,
        pattern,
        &mut mb.contexts.totals,
        &mut mb.residual.luma_ac,
        sink,
    )?;
    read_chroma(
        bits,
        around,
        pattern / 16,
        &mut mb.contexts.chroma_totals,
        &mut mb.residual,
        sink,
    )
}
