ghost use Rattle.std.specs.Prelude.{◌≡◌, ◌<◌, ◌≤◌, vec_len, length};

use crate::macroblocks::{motion, parts_of};
use h264_base::{SliceType, Weight, Weights};
use h264_inter::MotionVector;
use h264_intra::{Intra4x4PredMode, Intra16x16PredMode, IntraChromaPredMode};
use h264_mbsyntax::{Kind, Macroblock as Read};
use h264_near::{Contexts, Motion as Derived, Near, Partition, Vector};
use h264_plane::{Frame, Plane, Pool};
use h264_recon::{
    Available, IntraLuma, IntraModes, Lines, Macroblock, Motions, Position, Prediction, ReadLevels,
    SliceReferences, SliceWeights, Weighting, available, construct, given,
};
use h264_vectors::SliceContext;
use std::alloc::AllocError;
use std::process::Abort;

const NO_MOTIONS: [Option<Derived>; 16] = [None; 16];

/// What weighs nothing.
fn unweighted(weights: &SliceWeights) -> Weighting<'_> {
    Weighting::new(weights, &NO_MOTIONS)
}

const NO_SIDE: Available = Available {
    left: false,
    above: false,
    above_right: false,
    corner: false,
};

/// Samples of I_PCM: luma counts from 0 to 255, Cb is 100, and Cr counts by 2.
fn counting() -> [u8; 384] {
    let mut samples = [100; 384];
    for k in 0..256 {
        samples[k] = k as u8;
    }
    for k in 0..64 {
        samples[320 + k] = (2 * k) as u8;
    }
    samples
}

/// The lines and the frame of a picture of two macroblocks by two.
#[derive(Drop)]
struct Canvas {
    lines: Lines,
    frame: Frame,
}

/// Asks whether a macroblock at this column and row lies in the canvas.
fn assert_room(rt: &impl Abort, canvas: &Canvas, column: usize, row: usize)
    ensures place { (column < 2) × (row < 2) }
    ensures columns { (canvas.now.frame.y.width ≡ 32) × (canvas.now.frame.cb.width ≡ 16) × (canvas.now.frame.cr.width ≡ 16) }
    ensures rows { (canvas.now.frame.y.height ≡ 32) × (canvas.now.frame.cb.height ≡ 16) × (canvas.now.frame.cr.height ≡ 16) }
    ensures lines { (36 ≤ vec_len canvas.now.lines.y.above) × (16 ≤ vec_len canvas.now.lines.cb.above) × (16 ≤ vec_len canvas.now.lines.cr.above) }
{
    assert!(rt; column < 2);
    assert!(rt; row < 2);
    assert_eq!(rt; canvas.frame.y.width(), 32);
    assert_eq!(rt; canvas.frame.y.height(), 32);
    assert_eq!(rt; canvas.frame.cb.width(), 16);
    assert_eq!(rt; canvas.frame.cb.height(), 16);
    assert_eq!(rt; canvas.frame.cr.width(), 16);
    assert_eq!(rt; canvas.frame.cr.height(), 16);
    assert!(rt; canvas.lines.y.bottom_rows().len() >= 36);
    assert!(rt; canvas.lines.cb.bottom_rows().len() >= 16);
    assert!(rt; canvas.lines.cr.bottom_rows().len() >= 16);
}

/// Constructs an I_PCM macroblock.
fn put_samples(
    rt: &impl Abort,
    canvas: &mut Canvas,
    pool: &Pool,
    samples: &[u8; 384],
    position: Position,
) {
    assert_room(rt, canvas, position.column, position.row);
    let weights = SliceWeights::NONE;
    let m = Macroblock {
        available: NO_SIDE,
        prediction: Prediction::Pcm(samples),
        weighting: unweighted(&weights),
    };
    let none = Read::none();
    let levels = ReadLevels::new(&none, 0);
    let (lines, frame) = (&mut canvas.lines, &mut canvas.frame);
    assert!(rt; construct(lines, frame, &m, &levels, pool, position).is_ok());
}

/// An intra macroblock: the sides that its prediction may use, and its modes.
#[derive(Clone, Copy)]
struct Intra {
    available: Available,
    modes: IntraModes,
}

/// Horizontal prediction of all planes.
const FROM_LEFT: Intra = Intra {
    available: Available {
        left: true,
        above: false,
        above_right: false,
        corner: false,
    },
    modes: IntraModes {
        luma: IntraLuma::Whole(Intra16x16PredMode::Horizontal),
        chroma: IntraChromaPredMode::Horizontal,
    },
};

/// Constructs an intra macroblock, with the levels of one that was read.
fn put_intra(
    rt: &impl Abort,
    canvas: &mut Canvas,
    pool: &Pool,
    intra: Intra,
    levels: &ReadLevels<'_>,
    position: Position,
) {
    assert_room(rt, canvas, position.column, position.row);
    let weights = SliceWeights::NONE;
    let m = Macroblock {
        available: intra.available,
        prediction: Prediction::Intra(intra.modes),
        weighting: unweighted(&weights),
    };
    assert!(rt; levels.read.qp <= 51);
    let (lines, frame) = (&mut canvas.lines, &mut canvas.frame);
    assert!(rt; construct(lines, frame, &m, levels, pool, position).is_ok());
}

/// Constructs an inter macroblock from the picture at place 1 of the pool.
fn put_inter(
    rt: &impl Abort,
    canvas: &mut Canvas,
    pool: &Pool,
    vector: MotionVector,
    weighting: Weighting,
    position: Position,
) {
    assert_room(rt, canvas, position.column, position.row);
    assert_eq!(rt; pool.len(), 2);
    let reference = pool.frame(1);
    assert_eq!(rt; reference.y.width(), 32);
    assert_eq!(rt; reference.y.height(), 32);
    assert_eq!(rt; reference.cb.width(), 16);
    assert_eq!(rt; reference.cb.height(), 16);
    assert_eq!(rt; reference.cr.width(), 16);
    assert_eq!(rt; reference.cr.height(), 16);
    let motion = Derived {
        ref_idx: 0,
        picture: 0,
        vector: Vector {
            x: vector.x,
            y: vector.y,
        },
    };
    let m = Macroblock {
        available: NO_SIDE,
        prediction: Prediction::Inter(Motions {
            partition: Partition::P16x16,
            derived: &[Some(motion); 16],
            places: &[1; 16],
        }),
        weighting,
    };
    let none = Read::none();
    let levels = ReadLevels::new(&none, 0);
    let (lines, frame) = (&mut canvas.lines, &mut canvas.frame);
    assert!(rt; construct(lines, frame, &m, &levels, pool, position).is_ok());
}

/// Writes one sample.
fn set(rt: &impl Abort, plane: &mut Plane, x: usize, y: usize, sample: u8) {
    assert!(rt; x < plane.width());
    assert!(rt; y < plane.height());
    plane.set(x, y, sample);
}

/// A plane that rises by so much from column to column and from row to row.
fn rising(
    rt: &(impl Abort + AllocGlobal),
    side: usize,
    across: u8,
    down: u8,
) -> Result<Plane, AllocError>
    requires { side ≤ 32 }
{
    let mut plane = Plane::new(rt.alloc(), side, side)?;
    for y in 0..side {
        for x in 0..side {
            let sample = across
                .wrapping_mul(x as u8)
                .wrapping_add(down.wrapping_mul(y as u8));
            set(rt, &mut plane, x, y, sample);
        }
    }
    Ok(plane)
}

/// One sample.
fn get(rt: &impl Abort, plane: &Plane, x: usize, y: usize) -> u8 {
    assert!(rt; x < plane.width());
    assert!(rt; y < plane.height());
    plane.get(x, y)
}

/// A row of luma.
fn row<'a>(rt: &impl Abort, canvas: &'a Canvas, y: usize) -> &'a [u8]
    ensures { length result.now ≡ 32 }
{
    assert_eq!(rt; canvas.frame.y.width(), 32);
    assert!(rt; y < canvas.frame.y.height());
    canvas.frame.y.row(y)
}

/// A picture of two macroblocks by two that is not constructed yet, and a pool whose second picture rises to the right and below.
fn begin(rt: &(impl Abort + AllocGlobal)) -> Result<(Canvas, Pool), AllocError> {
    let mut pool = Pool::new(rt.alloc(), 2, 32, 32)?;
    let frame = Frame {
        y: rising(rt, 32, 3, 5)?,
        cb: rising(rt, 16, 7, 1)?,
        cr: rising(rt, 16, 1, 9)?,
    };
    assert_eq!(rt; pool.len(), 2);
    pool.put_back(1, frame);
    let canvas = Canvas {
        lines: Lines::new(rt.alloc(), 3)?,
        frame: Frame::new(rt.alloc(), 32, 32)?,
    };
    Ok((canvas, pool))
}

/// Macroblock 0 is I_PCM. Macroblock 1 goes on from its right column.
fn beside_raw(rt: &impl Abort, canvas: &mut Canvas, pool: &Pool) {
    put_samples(
        rt,
        canvas,
        pool,
        &counting(),
        Position { column: 0, row: 0 },
    );
    put_intra(
        rt,
        canvas,
        pool,
        FROM_LEFT,
        &ReadLevels::new(&Read::none(), 0),
        Position { column: 1, row: 0 },
    );
    assert_eq!(rt; get(rt, &canvas.frame.y, 7, 9), 151);
    assert_eq!(rt; get(rt, &canvas.frame.y, 31, 9), 159);
    assert_eq!(rt; get(rt, &canvas.frame.cb, 15, 7), 100);
    assert_eq!(rt; get(rt, &canvas.frame.cr, 8, 3), 62);
}

/// Stops unless four samples of a row of luma from this column on are these.
fn expect_four(rt: &impl Abort, canvas: &Canvas, x: usize, y: usize, samples: [u8; 4])
    requires { x ≤ 28 }
{
    assert_eq!(rt; &row(rt, canvas, y)[x..x + 4], samples.as_slice());
}

/// Before macroblock 2 the frame is spoilt where the filter would write, so that only the lines have the samples above: 240 to 255, then 255 from
/// macroblock 1. Its block 5 looks to the upper right, into macroblock 1. The DC of its block 2 makes 4 of each sample, and the block below is predicted from
/// these.
fn below_raw(rt: &impl Abort, canvas: &mut Canvas, pool: &Pool) {
    for x in 0..32 {
        set(rt, &mut canvas.frame.y, x, 15, 1);
    }
    let mut modes = [Intra4x4PredMode::Vertical; 16];
    modes[5] = Intra4x4PredMode::DiagonalDownLeft;
    let modes = IntraModes {
        luma: IntraLuma::Blocks(modes),
        chroma: IntraChromaPredMode::Vertical,
    };
    let available = Available {
        above: true,
        above_right: true,
        ..NO_SIDE
    };
    let mut read = Read::none();
    read.kind = Kind::Intra4x4;
    read.qp = 28;
    read.contexts.totals[2] = 1;
    read.residual.luma[2][0] = 1;
    put_intra(
        rt,
        canvas,
        pool,
        Intra { available, modes },
        &ReadLevels::new(&read, 0),
        Position { column: 0, row: 1 },
    );
    expect_four(rt, canvas, 0, 16, [240, 241, 242, 243]);
    expect_four(rt, canvas, 0, 20, [244, 245, 246, 247]);
    expect_four(rt, canvas, 0, 24, [244, 245, 246, 247]);
    expect_four(rt, canvas, 12, 16, [253, 254, 255, 255]);
    assert_eq!(rt; get(rt, &canvas.frame.cr, 3, 15), 118);
}

/// Macroblock 3 is two luma samples to the left and one above: one chroma sample, and half of one.
fn moved_macroblock(rt: &impl Abort, canvas: &mut Canvas, pool: &Pool) {
    let weights = SliceWeights::NONE;
    let vector = MotionVector { x: -8, y: -4 };
    put_inter(
        rt,
        canvas,
        pool,
        vector,
        unweighted(&weights),
        Position { column: 1, row: 1 },
    );
    assert_eq!(rt; get(rt, &canvas.frame.y, 16, 16), 117);
    assert_eq!(rt; get(rt, &canvas.frame.y, 31, 31), 237);
    assert_eq!(rt; get(rt, &canvas.frame.cb, 8, 8), 57);
    assert_eq!(rt; get(rt, &canvas.frame.cr, 8, 8), 75);
    assert_eq!(rt; get(rt, &canvas.frame.cb, 15, 15), 113);
}

/// A weight (8.4.2.3).
const fn weight(log2_weight_denom: u8, weight: i16, offset: i16) -> Weight {
    Weight {
        log2_weight_denom,
        weight,
        offset,
    }
}

/// Motions of one vector and one picture, by index 0 in the first quarter of a macroblock, and by index 1 in the others.
fn two_indexes() -> [Option<Derived>; 16] {
    let mut motions = [Some(motion(1, 40, 0, 0)); 16];
    for k in 0..4 {
        motions[k] = Some(motion(0, 40, 0, 0));
    }
    motions
}

/// Macroblock 3 is predicted from one picture by two indexes with other weights: (s + 1) >> 1 and s - 20 of luma, 3 * s and s of Cb, s and s + 9 of Cr.
fn weighted_macroblock(rt: &impl Abort, canvas: &mut Canvas, pool: &Pool) {
    let mut weights = [None; 16];
    weights[0] = Some(Weights {
        luma: weight(1, 1, 0),
        cb: weight(0, 3, 0),
        cr: weight(5, 32, 0),
    });
    weights[1] = Some(Weights {
        luma: weight(0, 1, -20),
        cb: weight(7, 128, 0),
        cr: weight(2, 4, 9),
    });
    let slice_weights = SliceWeights::new(&weights);
    let motions = two_indexes();
    let weighting = Weighting::new(&slice_weights, &motions);
    put_inter(
        rt,
        canvas,
        pool,
        MotionVector { x: 0, y: 0 },
        weighting,
        Position { column: 1, row: 1 },
    );
    assert_eq!(rt; get(rt, &canvas.frame.y, 16, 16), 64);
    assert_eq!(rt; get(rt, &canvas.frame.y, 24, 16), 132);
    assert_eq!(rt; get(rt, &canvas.frame.cb, 8, 8), 192);
    assert_eq!(rt; get(rt, &canvas.frame.cb, 8, 12), 68);
    assert_eq!(rt; get(rt, &canvas.frame.cr, 8, 8), 80);
    assert_eq!(rt; get(rt, &canvas.frame.cr, 12, 8), 93);
}

#[test]
fn macroblocks(rt: HostRuntime) -> Result<(), AllocError> {
    let (mut canvas, pool) = begin(&rt)?;
    beside_raw(&rt, &mut canvas, &pool);
    below_raw(&rt, &mut canvas, &pool);
    moved_macroblock(&rt, &mut canvas, &pool);
    weighted_macroblock(&rt, &mut canvas, &pool);
    residuals_as_read(&rt, &mut canvas, &pool);
    as_read(&rt)
}

const SLICE: SliceContext = SliceContext {
    number: 0,
    slice_type: SliceType::P,
    qp: 26,
    active: 2,
    references: [Some(40); 16],
    constrained_intra: false,
    chroma_qp_index_offset: 2,
    vector_limit: 512,
};

const PLACES: [u8; 16] = [5, 6, 7, 8, 0, 0, 0, 0, 0, 0, 0, 0, 0, 0, 0, 0];

/// An inter macroblock of the first slice, from the picture of index 2, whose right half has another vector.
fn moved() -> Read {
    let mut motions = [Some(motion(2, 40, 3, -2)); 16];
    for k in [4, 5, 6, 7, 12, 13, 14, 15] {
        motions[k] = Some(motion(2, 40, 9, 0));
    }
    let mut read = Read::none();
    read.kind = Kind::Inter {
        partition: Partition::P8x16,
    };
    read.contexts = Contexts {
        intra: false,
        motions,
        ..read.contexts
    };
    read
}

/// What keeps of a picture two macroblocks wide: an inter macroblock, and an intra one to its right; and the latter.
fn two_read(rt: &(impl Abort + AllocGlobal)) -> Result<(Near, Read), AllocError> {
    let mut near = Near::new(rt.alloc(), 2)?;
    let mut read = moved();
    near.push(&read.contexts);
    read.kind = Kind::Intra4x4;
    let mut modes = [Intra4x4PredMode::Dc; 16];
    modes[7] = Intra4x4PredMode::HorizontalUp;
    modes[9] = Intra4x4PredMode::DiagonalDownLeft;
    read.contexts = Contexts {
        intra: true,
        modes,
        ..read.contexts
    };
    read.chroma_mode = IntraChromaPredMode::Horizontal;
    near.push(&read.contexts);
    Ok((near, read))
}

/// What the reference indexes stand for.
fn references<'a>(weights: &'a SliceWeights) -> SliceReferences<'a> {
    SliceReferences {
        places: &PLACES,
        weights,
    }
}

/// The first macroblock, which moves.
fn moved_as_read(rt: &(impl Abort + AllocGlobal)) -> Result<(), AllocError> {
    let weights = SliceWeights::NONE;
    let near = Near::new(rt.alloc(), 2)?;
    let read = moved();
    let first = given(
        &read,
        &near,
        &SLICE,
        &references(&weights),
        Position { column: 0, row: 0 },
    );
    assert!(rt; !first.available.left && !first.available.above && !first.available.above_right);
    match first.prediction {
        Prediction::Inter(motions) => {
            assert!(rt; matches!(motions.partition, Partition::P8x16));
            assert_eq!(rt; motions.places[2], 7);
            assert_eq!(rt; parts_of(motions.derived[0]), Some((2, 40, 3, -2)));
            assert_eq!(rt; parts_of(motions.derived[4]), Some((2, 40, 9, 0)));
        }
        _ => assert!(rt; false),
    }
    Ok(())
}

/// The levels of older macroblocks are not this one's: Cb has a coefficient alone. QPC of 30 and 2 is 31. At QP'C 31 its DC level makes -704 of
/// the upper blocks, and 704 of the lower, which are 64 times the residual of samples that are predicted as 100.
fn residuals_as_read(rt: &impl Abort, canvas: &mut Canvas, pool: &Pool) {
    put_samples(
        rt,
        canvas,
        pool,
        &[100; 384],
        Position { column: 0, row: 0 },
    );
    let mut read = moved();
    read.qp = 30;
    read.residual.luma[0][0] = 9;
    read.residual.chroma_dc_totals[0] = 1;
    read.residual.chroma_dc[0][2] = -4;
    let levels = ReadLevels::new(&read, 2);
    put_intra(
        rt,
        canvas,
        pool,
        FROM_LEFT,
        &levels,
        Position { column: 1, row: 0 },
    );
    expect_rows(rt, &canvas.frame.y, 16, 100);
    expect_rows(rt, &canvas.frame.cr, 8, 100);
    let cb = &canvas.frame.cb;
    assert_eq!(rt; (get(rt, cb, 8, 0), get(rt, cb, 15, 3)), (89, 89));
    assert_eq!(rt; (get(rt, cb, 8, 4), get(rt, cb, 15, 7)), (111, 111));
}

/// Stops unless each sample of so many rows is this.
fn expect_rows(rt: &impl Abort, plane: &Plane, rows: usize, sample: u8) {
    for y in 0..rows {
        assert!(rt; y < plane.height());
        for found in plane.row(y) {
            assert_eq!(rt; *found, sample);
        }
    }
}

/// Whether these are the modes of the intra macroblock.
fn are_its_modes(modes: &IntraModes) -> bool {
    let IntraLuma::Blocks(blocks) = &modes.luma else {
        return false;
    };
    matches!(blocks[7], Intra4x4PredMode::HorizontalUp)
        && matches!(blocks[9], Intra4x4PredMode::DiagonalDownLeft)
        && matches!(blocks[0], Intra4x4PredMode::Dc)
        && matches!(modes.chroma, IntraChromaPredMode::Horizontal)
}

/// The first macroblock of the second row, with the modes of the intra one. Under constrained_intra_pred_flag the inter macroblock above is no
/// side; those of another slice are none.
fn intra_as_read(rt: &(impl Abort + AllocGlobal)) -> Result<(), AllocError> {
    let weights = SliceWeights::NONE;
    let (near, read) = two_read(rt)?;
    let intra = given(
        &read,
        &near,
        &SLICE,
        &references(&weights),
        Position { column: 0, row: 1 },
    );
    assert!(rt; intra.available.above && intra.available.above_right && !intra.available.left);
    match intra.prediction {
        Prediction::Intra(modes) => assert!(rt; are_its_modes(&modes)),
        _ => assert!(rt; false),
    }
    let own = available(&near, 0, true, 0, 1);
    assert!(rt; !own.above && own.above_right);
    let other = available(&near, 1, false, 0, 1);
    assert!(rt; !other.above && !other.above_right);
    Ok(())
}

/// One of Intra 16x16, and I_PCM.
fn others_as_read(rt: &(impl Abort + AllocGlobal)) -> Result<(), AllocError> {
    let weights = SliceWeights::NONE;
    let (near, mut read) = two_read(rt)?;
    read.kind = Kind::Intra16x16 {
        mode: Intra16x16PredMode::Plane,
    };
    match given(
        &read,
        &near,
        &SLICE,
        &references(&weights),
        Position { column: 0, row: 1 },
    )
    .prediction
    {
        Prediction::Intra(modes) => {
            assert!(rt; matches!(modes.luma, IntraLuma::Whole(Intra16x16PredMode::Plane)));
        }
        _ => assert!(rt; false),
    }
    read.kind = Kind::Pcm;
    read.pcm[255] = 1;
    read.pcm[256] = 2;
    read.pcm[383] = 3;
    match given(
        &read,
        &near,
        &SLICE,
        &references(&weights),
        Position { column: 0, row: 1 },
    )
    .prediction
    {
        Prediction::Pcm(samples) => {
            assert_eq!(rt; (samples[255], samples[256], samples[383]), (1, 2, 3));
        }
        _ => assert!(rt; false),
    }
    Ok(())
}

/// What macroblocks that were read give to their construction.
fn as_read(rt: &(impl Abort + AllocGlobal)) -> Result<(), AllocError> {
    moved_as_read(rt)?;
    intra_as_read(rt)?;
    others_as_read(rt)
}
