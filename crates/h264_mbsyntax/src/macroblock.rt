//! Macroblocks (7.3.5).
#![tactic(auto)]

ghost use Rattle.std.specs.Prelude.{◌≡◌, ℕ, ◌+◌, ◌-◌, ◌*◌, ◌/◌, ◌%◌, ◌<◌, ◌≤◌, ◌^◌, List, [], replicate, None, true, false, OnOk};
ghost use Rattle.h264_base.specs.Call.{HasRoom, IsQuiet, span};
ghost use Rattle.h264_base.specs.Meets.{Meets, Is, Answers};
ghost use Rattle.h264_intra.specs.declared.luma4.Intra4x4PredMode.TheVariants.{Dc};
ghost use Rattle.h264_near.specs.Coded.{CodedMacroblock};
ghost use Rattle.h264_near.specs.Keeps.{Keeps};
ghost use Rattle.h264_mbsyntax.specs.Macroblock as syntax;
ghost use Rattle.h264_mbsyntax.specs.declared.macroblock.Kind.TheVariants as kind;
ghost use Rattle.h264_base.specs.declared.mode.SliceType.TheVariants as slice_type;
ghost use Rattle.h264_vectors.specs.Agrees.{Usable};
ghost use Rattle.h264_mbsyntax.specs.Holds.{HoldsMacroblock};
ghost use Rattle.h264_mbsyntax.specs.Possible.{IsRead};

use crate::intra::{read_block_modes, read_chroma_mode};
use crate::residual::{Residual, read_coefficients, read_coefficients16};
use h264_base::{ElementName, Elements, Rule, SliceType, Stop};
use h264_bits::{Bits, Found, check, read_align, read_bytes, read_ue};
use h264_intra::{Intra4x4PredMode, Intra16x16PredMode, IntraChromaPredMode};
use h264_near::{Contexts, Motion, Near, Partition};
use h264_tables::Table;
use h264_vectors::{SliceContext, Surroundings, read_motions};

/// How a macroblock is predicted.
#[derive(Clone, Copy)]
pub enum Kind {
    /// I_4x4: the modes are the contexts'.
    Intra4x4,
    /// Intra 16x16.
    Intra16x16 { mode: Intra16x16PredMode },
    /// I_PCM.
    Pcm,
    /// P: references and vectors are the contexts'. The blocks of each partition have one reference and one vector, so that they may be predicted
    /// and filtered together. A `CodedMacroblock` has no partition: what follows of a macroblock goes by the motion of each 4x4 block (8.4.2, 8.7.2.1),
    /// and is the same for every partition into blocks of one motion.
    Inter { partition: Partition },
}

/// What a macroblock says. It is used again for the next one, so that levels and samples that this one does not have are older ones.
#[derive(Clone, Copy)]
pub struct Macroblock {
    pub kind: Kind,
    pub contexts: Contexts,
    /// intra_chroma_pred_mode, in I_4x4 and Intra 16x16.
    pub chroma_mode: IntraChromaPredMode,
    /// QP_Y.
    pub qp: u8,
    /// The samples of I_PCM: 256 of Y, 64 of Cb and 64 of Cr.
    pub pcm: [u8; 384],
    pub residual: Residual,
}

impl Macroblock {
    /// A place for macroblocks, before one is read into it.
    pub fn none() -> Macroblock
        ensures { result.qp ≡ 0 }
    {
        Macroblock {
            kind: Kind::Pcm,
            contexts: intra_contexts(0, 0, [0; 16], [0; 8], [Intra4x4PredMode::Dc; 16]),
            chroma_mode: IntraChromaPredMode::Dc,
            qp: 0,
            pcm: [0; 384],
            residual: Residual {
                luma_dc_total: 0,
                luma_dc: [0; 16],
                luma: [[0; 16]; 16],
                luma_ac: [[0; 15]; 16],
                chroma_dc_totals: [0; 2],
                chroma_dc: [[0; 4]; 2],
                chroma_ac: [[0; 15]; 8],
            },
        }
    }
}

/// The contexts of an intra macroblock.
#[inline]
fn intra_contexts(
    slice: u32,
    qp: u8,
    totals: [u8; 16],
    chroma_totals: [u8; 8],
    modes: [Intra4x4PredMode; 16],
) -> Contexts
    ensures slice { result.slice ≡ slice }
    ensures intra { result.intra ≡ true }
    ensures qp { result.qp ≡ qp }
    ensures totals { result.totals ≡ totals }
    ensures chroma_totals { result.chroma_totals ≡ chroma_totals }
    ensures modes { result.modes ≡ modes }
    ensures motions { result.motions ≡ replicate 16 None }
{
    Contexts {
        slice,
        intra: true,
        qp,
        totals,
        chroma_totals,
        modes,
        motions: [None; 16],
    }
}

/// The contexts of an inter macroblock.
#[inline]
fn inter_contexts(
    slice: u32,
    qp: u8,
    totals: [u8; 16],
    chroma_totals: [u8; 8],
    motions: [Option<Motion>; 16],
) -> Contexts
    ensures slice { result.slice ≡ slice }
    ensures intra { result.intra ≡ false }
    ensures qp { result.qp ≡ qp }
    ensures totals { result.totals ≡ totals }
    ensures chroma_totals { result.chroma_totals ≡ chroma_totals }
    ensures modes { result.modes ≡ replicate 16 Dc }
    ensures motions { result.motions ≡ motions }
{
    Contexts {
        slice,
        intra: false,
        qp,
        totals,
        chroma_totals,
        modes: [Intra4x4PredMode::Dc; 16],
        motions,
    }
}

/// Makes `mb` an intra macroblock, of which the residual is not read yet.
fn begin_intra(
    mb: &mut Macroblock,
    kind: Kind,
    slice: u32,
    modes: [Intra4x4PredMode; 16],
    chroma_mode: IntraChromaPredMode,
)
    ensures kind { mb.new.kind ≡ kind }
    ensures chroma_mode { mb.new.chroma_mode ≡ chroma_mode }
    ensures slice { mb.new.contexts.slice ≡ slice }
    ensures intra { mb.new.contexts.intra ≡ true }
    ensures modes { mb.new.contexts.modes ≡ modes }
    ensures motions { mb.new.contexts.motions ≡ replicate 16 None }
    ensures luma_dc_total { mb.new.residual.luma_dc_total ≡ 0 }
{
    mb.kind = kind;
    mb.chroma_mode = chroma_mode;
    mb.residual.luma_dc_total = 0;
    mb.contexts = intra_contexts(slice, 0, [0; 16], [0; 8], modes);
}

/// Makes `mb` an inter macroblock, of which partition, references, vectors and residual are not read yet.
fn begin_inter(mb: &mut Macroblock, slice: u32)
    ensures slice { mb.new.contexts.slice ≡ slice }
    ensures intra { mb.new.contexts.intra ≡ false }
    ensures modes { mb.new.contexts.modes ≡ replicate 16 Dc }
    ensures motions { mb.new.contexts.motions ≡ replicate 16 None }
    ensures luma_dc_total { mb.new.residual.luma_dc_total ≡ 0 }
{
    mb.residual.luma_dc_total = 0;
    mb.contexts = inter_contexts(slice, 0, [0; 16], [0; 8], [None; 16]);
}

/// Reads what follows mb_type of an I_4x4 macroblock. `qp` is QP_Y,PRED.
fn read_intra4x4<S: Elements>(
    bits: &mut Bits,
    around: Surroundings,
    qp: u8,
    mb: &mut Macroblock,
    sink: &mut S,
) -> Result<(), Stop>
    requires qp { qp ≤ 51 }
    requires room { HasRoom S.failures sink.old }
    ensures meets { (width : ℕ) (picture : List CodedMacroblock) → Keeps width picture around.entry.near.now →
        qp ≡ syntax.predicted_qp around.entry.slice.now picture →
        Meets (span S.took S.failures sink.old sink.new) (λ _ m. HoldsMacroblock mb.new m) (syntax.intra4x4 width around.entry.slice.now picture)
        bits.old bits.new result }
    ensures quiet { OnOk result (IsQuiet S.failures sink.old sink.new) }
    ensures within { OnOk result (mb.new.qp ≤ 51) }
    ensures same { OnOk result (mb.new.contexts.slice ≡ around.entry.slice.now.number) }
{
    let Surroundings { near, slice } = around;
    let modes = read_block_modes(bits, near, slice.number, slice.constrained_intra, sink)?;
    let samples = near.macroblock_samples(slice.number, slice.constrained_intra);
    let chroma_mode = read_chroma_mode(bits, samples, sink)?;
    begin_intra(mb, Kind::Intra4x4, slice.number, modes, chroma_mode);
    let table = Table::CodedBlockPatternIntra;
    read_coefficients(bits, around, qp, table, mb, sink)
}

/// Reads the samples of I_PCM. `qp` is QP_Y,PRED, which stays.
fn read_pcm<S: Elements>(
    bits: &mut Bits,
    slice: &SliceContext,
    qp: u8,
    mb: &mut Macroblock,
    sink: &mut S,
) -> Result<(), Stop>
    requires { qp ≤ 51 }
    ensures meets { (picture : List CodedMacroblock) → qp ≡ syntax.predicted_qp slice.now picture →
        Meets (span S.took S.failures sink.old sink.new) (λ _ m. HoldsMacroblock mb.new m) (syntax.pcm slice.now picture) bits.old bits.new result }
    ensures within { OnOk result (mb.new.qp ≤ 51) }
    ensures quiet { OnOk result (IsQuiet S.failures sink.old sink.new) }
    ensures same { OnOk result (mb.new.contexts.slice ≡ slice.now.number) }
{
    read_align(bits, sink)?;
    let samples = read_bytes(bits, 384, sink)?;
    mb.kind = Kind::Pcm;
    mb.qp = qp;
    mb.pcm.copy_from_slice(samples);
    let modes = [Intra4x4PredMode::Dc; 16];
    mb.contexts = intra_contexts(slice.number, 0, [16; 16], [16; 8], modes);
    Ok(())
}

/// The pattern that mb_type of an Intra 16x16 macroblock says.
#[tactic(auto, unfolding(crate::specs::Macroblock::pattern_of))]
#[inline]
fn pattern_of(kind: u32) -> u8
    requires some { 0 < kind }
    requires few { kind < 25 }
    ensures { result ≡ syntax.pattern_of kind }
{
    if kind < 13 {
        return ((kind - 1) / 4 % 3 * 16) as u8;
    }
    ((kind - 1) / 4 % 3 * 16 + 15) as u8
}

/// Reads what follows mb_type of an Intra 16x16 macroblock. `qp` is QP_Y,PRED.
fn read_intra16x16<S: Elements>(
    bits: &mut Bits,
    around: Surroundings,
    qp: u8,
    mb_type: Found<u32>,
    mb: &mut Macroblock,
    sink: &mut S,
) -> Result<(), Stop>
    requires some { 0 < mb_type.value }
    requires few { mb_type.value < 25 }
    requires qp { qp ≤ 51 }
    requires room { HasRoom S.failures sink.old }
    ensures meets { (width : ℕ) (picture : List CodedMacroblock) → Keeps width picture around.entry.near.now →
        qp ≡ syntax.predicted_qp around.entry.slice.now picture →
        Meets (span S.took S.failures sink.old sink.new) (λ _ m. HoldsMacroblock mb.new m)
        (syntax.intra16x16 width around.entry.slice.now picture mb_type.bit mb_type.value) bits.old bits.new result }
    ensures quiet { OnOk result (IsQuiet S.failures sink.old sink.new) }
    ensures within { OnOk result (mb.new.qp ≤ 51) }
    ensures same { OnOk result (mb.new.contexts.slice ≡ around.entry.slice.now.number) }
{
    let Surroundings { near, slice } = around;
    let samples = near.macroblock_samples(slice.number, slice.constrained_intra);
    let mode = Intra16x16PredMode::of_number(((mb_type.value - 1) % 4) as u8);
    check(mode.is_possible(samples), Rule::IntraMode, mb_type.bit)?;
    let chroma_mode = read_chroma_mode(bits, samples, sink)?;
    begin_intra(
        mb,
        Kind::Intra16x16 { mode },
        slice.number,
        [Intra4x4PredMode::Dc; 16],
        chroma_mode,
    );
    let pattern = pattern_of(mb_type.value);
    read_coefficients16(bits, around, qp, pattern, mb, sink)
}

/// Reads an inter macroblock by its mb_type in P slices, 0 to 4. `qp` is QP_Y,PRED.
fn read_inter<S: Elements>(
    bits: &mut Bits,
    around: Surroundings,
    qp: u8,
    mb_type: Found<u32>,
    mb: &mut Macroblock,
    sink: &mut S,
) -> Result<(), Stop>
    requires qp { qp ≤ 51 }
    requires usable { Usable around.slice.now }
    requires room { HasRoom S.failures sink.old }
    ensures meets { (width : ℕ) (picture : List CodedMacroblock) → Keeps width picture around.entry.near.now →
        qp ≡ syntax.predicted_qp around.entry.slice.now picture →
        Meets (span S.took S.failures sink.old sink.new) (λ _ m. HoldsMacroblock mb.new m)
        (syntax.inter width around.entry.slice.now picture mb_type.bit mb_type.value) bits.old bits.new result }
    ensures quiet { OnOk result (IsQuiet S.failures sink.old sink.new) }
    ensures within { OnOk result (mb.new.qp ≤ 51) }
    ensures same { OnOk result (mb.new.contexts.slice ≡ around.entry.slice.now.number) }
{
    begin_inter(mb, around.slice.number);
    let mut partition = Partition::P16x16;
    let motions = &mut mb.contexts.motions;
    let fits = read_motions(bits, around, mb_type, &mut partition, motions, sink)?;
    mb.kind = Kind::Inter { partition };
    let table = Table::CodedBlockPatternInter;
    read_coefficients(bits, around, qp, table, mb, sink)?;
    check(fits, Rule::VectorRange, mb_type.bit)
}

/// Reads a macroblock by its mb_type in I slices. `qp` is QP_Y,PRED.
fn read_of_i<S: Elements>(
    bits: &mut Bits,
    around: Surroundings,
    qp: u8,
    mb_type: Found<u32>,
    mb: &mut Macroblock,
    sink: &mut S,
) -> Result<(), Stop>
    requires qp { qp ≤ 51 }
    requires room { HasRoom S.failures sink.old }
    ensures meets { (width : ℕ) (picture : List CodedMacroblock) → Keeps width picture around.entry.near.now →
        qp ≡ syntax.predicted_qp around.entry.slice.now picture →
        Meets (span S.took S.failures sink.old sink.new) (λ _ m. HoldsMacroblock mb.new m)
        (syntax.by_type slice_type.I width around.entry.slice.now picture mb_type.bit mb_type.value) bits.old bits.new result }
    ensures quiet { OnOk result (IsQuiet S.failures sink.old sink.new) }
    ensures within { OnOk result (mb.new.qp ≤ 51) }
    ensures same { OnOk result (mb.new.contexts.slice ≡ around.entry.slice.now.number) }
{
    check(mb_type.value <= 25, Rule::Range, mb_type.bit)?;
    if mb_type.value == 0 {
        return read_intra4x4(bits, around, qp, mb, sink);
    }
    if mb_type.value == 25 {
        return read_pcm(bits, around.slice, qp, mb, sink);
    }
    read_intra16x16(bits, around, qp, mb_type, mb, sink)
}

/// Reads a macroblock by its mb_type and the type of its slice: in P slices the types of I slices begin at 5. `qp` is QP_Y,PRED.
fn read_by_type<S: Elements>(
    bits: &mut Bits,
    around: Surroundings,
    qp: u8,
    mb_type: Found<u32>,
    mb: &mut Macroblock,
    sink: &mut S,
) -> Result<(), Stop>
    requires qp { qp ≤ 51 }
    requires usable { Usable around.slice.now }
    requires room { HasRoom S.failures sink.old }
    ensures meets { (width : ℕ) (picture : List CodedMacroblock) → Keeps width picture around.entry.near.now →
        qp ≡ syntax.predicted_qp around.entry.slice.now picture →
        Meets (span S.took S.failures sink.old sink.new) (λ _ m. HoldsMacroblock mb.new m)
        (syntax.by_type around.entry.slice.now.slice_type width around.entry.slice.now picture mb_type.bit mb_type.value) bits.old bits.new result }
    ensures quiet { OnOk result (IsQuiet S.failures sink.old sink.new) }
    ensures within { OnOk result (mb.new.qp ≤ 51) }
    ensures same { OnOk result (mb.new.contexts.slice ≡ around.entry.slice.now.number) }
{
    match around.slice.slice_type {
        SliceType::I => read_of_i(bits, around, qp, mb_type, mb, sink),
        SliceType::P => {
            if mb_type.value < 5 {
                return read_inter(bits, around, qp, mb_type, mb, sink);
            }
            let mb_type = Found {
                bit: mb_type.bit,
                value: mb_type.value - 5,
            };
            read_of_i(bits, around, qp, mb_type, mb, sink)
        }
    }
}

/// Reads a macroblock into `mb`, which has the contexts of those before it in `near`: the stream bit of its mb_type.
/// `qp` is QP_Y,PRED, 0 to 51.
///
/// Ok: the elements that the sink was told are its one derivation, with every rule met but that on the range of the transform;
/// `mb` holds it, and what it refers to is there. No: the first rule that it breaks, at its stream bit. Write: the sink failed.
/// After an Err the reader may have moved, and nothing is said of `mb`.
pub fn read_macroblock<S: Elements>(
    bits: &mut Bits,
    near: &Near,
    slice: &SliceContext,
    qp: u8,
    mb: &mut Macroblock,
    sink: &mut S,
) -> Result<u64, Stop>
    requires qp { qp ≤ 51 }
    requires usable { Usable slice.now }
    requires room { HasRoom S.failures sink.old }
    ensures answers { (width : ℕ) (picture : List CodedMacroblock) → Keeps width picture near.now → qp ≡ syntax.predicted_qp slice.now picture →
        Answers (span S.took S.failures sink.old sink.new) (IsRead width slice.now picture mb.new) (syntax.macroblock width slice.now picture)
        bits.old bits.new result }
    ensures meets { (width : ℕ) (picture : List CodedMacroblock) → Keeps width picture near.now → qp ≡ syntax.predicted_qp slice.now picture →
        Meets (span S.took S.failures sink.old sink.new) (IsRead width slice.now picture mb.new) (syntax.macroblock width slice.now picture)
        bits.old bits.new result }
    ensures quiet { OnOk result (IsQuiet S.failures sink.old sink.new) }
    ensures within { OnOk result (mb.new.qp ≤ 51) }
    ensures same { OnOk result (mb.new.contexts.slice ≡ slice.now.number) }
{
    let mb_type = read_ue(bits, ElementName::MbType, sink)?;
    let around = Surroundings { near, slice };
    read_by_type(bits, around, qp, mb_type, mb, sink)?;
    Ok(mb_type.bit)
}
