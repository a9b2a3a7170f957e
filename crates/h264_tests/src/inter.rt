ghost use Rattle.std.specs.Prelude.{◌≡◌, ◌+◌, ◌*◌, ◌<◌, ◌≤◌, IfOk};
ghost use Rattle.h264_plane.specs.Samples.{IsSized};
ghost use Rattle.h264_inter.specs.Weighted.{IsInRange};

use h264_base::Weight;
use h264_inter::{MotionVector, chroma, luma, weigh};
use h264_plane::Plane;
use std::alloc::{AllocError, Global};

#[test]
fn places(rt: HostRuntime) -> Result<(), AllocError> {
    assert!(rt; sixteen_places(rt.alloc())?);
    assert!(rt; places_around_a_sample(rt.alloc())?);
    assert!(rt; places_beside_two_samples(rt.alloc())?);
    assert!(rt; places_on_a_slope(rt.alloc())?);
    Ok(())
}

#[test]
fn eighths_and_weights(rt: HostRuntime) -> Result<(), AllocError> {
    assert!(rt; eighths(rt.alloc())?);
    assert!(rt; weighted_samples());
    Ok(())
}

#[test]
fn borders(rt: HostRuntime) -> Result<(), AllocError> {
    assert!(rt; corners(rt.alloc())?);
    assert!(rt; sides(rt.alloc())?);
    assert!(rt; corners_of_chroma(rt.alloc())?);
    Ok(())
}

#[test]
fn streams_and_sizes(rt: HostRuntime) -> Result<(), AllocError> {
    assert!(rt; stream(rt.alloc())?);
    assert!(rt; even_luma(rt.alloc())?);
    assert!(rt; even_chroma(rt.alloc())?);
    Ok(())
}

/// Whether a block of luma has these samples.
fn is_luma<const W: usize, const H: usize, const N: usize>(
    p: &Plane,
    place: (usize, usize),
    vector: (i16, i16),
    expected: [u8; N],
) -> bool
    requires width { (0 < W) × (W ≤ 16) }
    requires height { (0 < H) × (H ≤ 16) }
    requires columns { place.0 + W ≤ p.now.width }
    requires rows { place.1 + H ≤ p.now.height }
    requires whole { N ≡ W * H }
{
    let mut block = [0; N];
    let vector = MotionVector {
        x: vector.0,
        y: vector.1,
    };
    luma::<W, H>(p, place.0, place.1, vector, &mut block);
    block == expected
}

/// Whether a block of chroma has these samples.
fn is_chroma<const W: usize, const H: usize, const N: usize>(
    p: &Plane,
    place: (usize, usize),
    vector: (i16, i16),
    expected: [u8; N],
) -> bool
    requires width { (0 < W) × (W ≤ 16) }
    requires height { (0 < H) × (H ≤ 16) }
    requires columns { place.0 + W ≤ p.now.width }
    requires rows { place.1 + H ≤ p.now.height }
    requires whole { N ≡ W * H }
{
    let mut block = [0; N];
    let vector = MotionVector {
        x: vector.0,
        y: vector.1,
    };
    chroma::<W, H>(p, place.0, place.1, vector, &mut block);
    block == expected
}

/// Whether the first and the last row of a block of luma have these samples.
fn are_rows<const W: usize, const H: usize, const N: usize>(
    p: &Plane,
    place: (usize, usize),
    vector: (i16, i16),
    first: [u8; W],
    last: [u8; W],
) -> bool
    requires width { (0 < W) × (W ≤ 16) }
    requires height { (0 < H) × (H ≤ 16) }
    requires columns { place.0 + W ≤ p.now.width }
    requires rows { place.1 + H ≤ p.now.height }
    requires row { W ≤ N }
    requires whole { N ≡ W * H }
{
    let mut block = [0; N];
    let vector = MotionVector {
        x: vector.0,
        y: vector.1,
    };
    luma::<W, H>(p, place.0, place.1, vector, &mut block);
    let all = block.as_slice();
    &all[..W] == first.as_slice() && &all[N - W..] == last.as_slice()
}

/// A plane of 16 columns and rows, all of whose samples are 0 but that of column 5 of row 6, which is 255.
fn dotted(alloc: Global) -> Result<Plane, AllocError>
    ensures { IfOk result (λ p. IsSized p 16 16) }
{
    let mut p = Plane::new(alloc, 16, 16)?;
    p.set(5, 6, 255);
    Ok(p)
}

fn sixteen_places(alloc: Global) -> Result<bool, AllocError> {
    // There b and h are (20 * 255 + 16) >> 5 = 159, j is (400 * 255 + 512) >> 10 = 100, s and m are 0.
    let p = dotted(alloc)?;
    let places = [
        255, 207, 159, 80, 207, 159, 130, 80, 159, 130, 100, 50, 80, 80, 50, 0,
    ];
    for k in 0..16 {
        let vector = MotionVector {
            x: (k % 4) as i16,
            y: (k / 4) as i16,
        };
        let mut block = [0; 16];
        luma::<4, 4>(&p, 5, 6, vector, &mut block);
        if block[0] != places[k] {
            return Ok(false);
        }
    }
    Ok(true)
}

fn places_around_a_sample(alloc: Global) -> Result<bool, AllocError> {
    // From places two to the left and two above on, its weights are -5, 20, 20, -5 across and down, and (25 * 255 + 512) >> 10 is 6.
    let p = dotted(alloc)?;
    let j = [6, 0, 0, 6, 0, 100, 100, 0, 0, 100, 100, 0, 6, 0, 0, 6];
    let b = [0, 0, 0, 0, 0, 0, 0, 0, 0, 159, 159, 0, 0, 0, 0, 0];
    let h = [0, 0, 0, 0, 0, 0, 159, 0, 0, 0, 159, 0, 0, 0, 0, 0];
    Ok(
        is_luma::<4, 4, 16>(&p, (3, 4), (2, 2), j)
            && is_luma::<4, 4, 16>(&p, (3, 4), (2, 0), b)
            && is_luma::<4, 4, 16>(&p, (3, 4), (0, 2), h),
    )
}

fn places_beside_two_samples(alloc: Global) -> Result<bool, AllocError> {
    // Two samples of 255 beside each other: (40 * 255 + 16) >> 5 is 319.
    let mut p = dotted(alloc)?;
    p.set(6, 6, 255);
    Ok(is_luma::<1, 1, 1>(&p, (5, 6), (2, 0), [255]))
}

fn places_on_a_slope(alloc: Global) -> Result<bool, AllocError> {
    // Samples of 10 * x: half samples between 10 * x and 10 * x + 10 are (320 * x + 160 + 16) >> 5 = 10 * x + 5, quarters 10 * x + 3 and
    // 10 * x + 8.
    let mut samples = [0; 256];
    for k in 0..256 {
        samples[k] = (k % 16 * 10) as u8;
    }
    let mut p = Plane::new(alloc, 16, 16)?;
    p.put_block::<16, 16>(0, 0, &samples);
    let e = [43, 53, 63, 73];
    let f = [35, 45, 55, 65];
    let c = [58, 68, 78, 88];
    Ok(
        are_rows::<4, 8, 32>(&p, (4, 4), (1, 3), e, e)
            && are_rows::<4, 8, 32>(&p, (4, 4), (-2, 1), f, f)
            && are_rows::<4, 8, 32>(&p, (4, 4), (7, 0), c, c),
    )
}

fn eighths(alloc: Global) -> Result<bool, AllocError> {
    // One sample of 64 at column 3 of row 3, one eighth across and six eighths down: the weights of A, B, C and D are 14, 2, 42 and 6.
    let mut p = Plane::new(alloc, 8, 8)?;
    p.set(3, 3, 64);
    let across = is_chroma::<2, 2, 4>(&p, (2, 2), (1, 6), [6, 42, 2, 14]);
    // One column to the left and one row up, by a vector of -7 and -2 eighths.
    Ok(across && is_chroma::<2, 2, 4>(&p, (3, 3), (-7, -2), [6, 42, 2, 14]))
}

fn corners(alloc: Global) -> Result<bool, AllocError> {
    // A picture of one macroblock, whose corners are 10, 20, 30 and 40: beyond a corner each sample is the corner's.
    let mut p = Plane::new(alloc, 16, 16)?;
    p.set(0, 0, 10);
    p.set(15, 0, 20);
    p.set(0, 15, 30);
    p.set(15, 15, 40);
    Ok(
        is_luma::<16, 16, 256>(&p, (0, 0), (-8192, -2048), [10; 256])
            && is_luma::<16, 16, 256>(&p, (0, 0), (8191, -2048), [20; 256])
            && is_luma::<16, 16, 256>(&p, (0, 0), (-8192, 2047), [30; 256])
            && is_luma::<16, 16, 256>(&p, (0, 0), (8191, 2047), [40; 256]),
    )
}

fn sides(alloc: Global) -> Result<bool, AllocError> {
    // Samples of 16 * y + x: to the left and to the right of the picture its first and last columns go on, above and below it its first and
    // last rows.
    let mut samples = [0; 256];
    for k in 0..256 {
        samples[k] = k as u8;
    }
    let mut p = Plane::new(alloc, 16, 16)?;
    p.put_block::<16, 16>(0, 0, &samples);
    let above = [8, 9, 10, 11, 12, 13, 14, 15];
    let below = [248, 249, 250, 251, 252, 253, 254, 255];
    // Six columns to the left, the border is reached on the way.
    let border = [0, 0, 0, 1, 2, 3, 4, 5];
    Ok(
        are_rows::<8, 8, 64>(&p, (8, 8), (-400, 0), [128; 8], [240; 8])
            && are_rows::<8, 8, 64>(&p, (8, 8), (400, 0), [143; 8], [255; 8])
            && are_rows::<8, 8, 64>(&p, (8, 8), (0, -400), above, above)
            && are_rows::<8, 8, 64>(&p, (8, 8), (0, 400), below, below)
            && is_luma::<8, 1, 8>(&p, (4, 0), (-24, 0), border),
    )
}

fn corners_of_chroma(alloc: Global) -> Result<bool, AllocError> {
    // Beyond a chroma plane of one macroblock.
    let mut p = Plane::new(alloc, 8, 8)?;
    p.set(0, 0, 10);
    p.set(7, 7, 40);
    Ok(
        is_chroma::<8, 8, 64>(&p, (0, 0), (-8192, -2048), [10; 64])
            && is_chroma::<8, 8, 64>(&p, (0, 0), (8191, 2047), [40; 64]),
    )
}

fn stream(alloc: Global) -> Result<bool, AllocError> {
    // The second frame of a stream that public decoders agree on: the first one's rows are 128 up to column 13, then 129, 129, 130, 130, 130,
    // then 131; the vector of the left macroblock is (64, 0), and the right one is skipped.
    let mut p = Plane::new(alloc, 32, 16)?;
    p.put_block::<16, 16>(0, 0, &[128; 256]);
    p.put_block::<16, 16>(16, 0, &[131; 256]);
    p.put_block::<2, 16>(14, 0, &[129; 32]);
    p.put_block::<3, 16>(16, 0, &[130; 48]);
    let row = [
        130, 130, 130, 131, 131, 131, 131, 131, 131, 131, 131, 131, 131, 131, 131, 131,
    ];
    Ok(
        are_rows::<16, 16, 256>(&p, (0, 0), (64, 0), row, row)
            && are_rows::<16, 16, 256>(&p, (16, 0), (0, 0), row, row),
    )
}

/// A plane of 16 columns and rows, each sample of which is 77.
fn even(alloc: Global) -> Result<Plane, AllocError>
    ensures { IfOk result (λ p. IsSized p 16 16) }
{
    let mut p = Plane::new(alloc, 16, 16)?;
    p.put_block::<16, 16>(0, 0, &[77; 256]);
    Ok(p)
}

fn even_luma(alloc: Global) -> Result<bool, AllocError> {
    // An even picture stays even at each size.
    let p = even(alloc)?;
    Ok(
        is_luma::<16, 16, 256>(&p, (0, 0), (3, -5), [77; 256])
            && is_luma::<16, 8, 128>(&p, (0, 8), (3, -5), [77; 128])
            && is_luma::<8, 16, 128>(&p, (8, 0), (3, -5), [77; 128])
            && is_luma::<8, 8, 64>(&p, (8, 8), (3, -5), [77; 64])
            && is_luma::<8, 4, 32>(&p, (8, 12), (3, -5), [77; 32])
            && is_luma::<4, 8, 32>(&p, (12, 8), (3, -5), [77; 32])
            && is_luma::<4, 4, 16>(&p, (12, 12), (3, -5), [77; 16]),
    )
}

fn even_chroma(alloc: Global) -> Result<bool, AllocError> {
    let p = even(alloc)?;
    Ok(
        is_chroma::<8, 8, 64>(&p, (0, 0), (3, -5), [77; 64])
            && is_chroma::<8, 4, 32>(&p, (0, 0), (3, -5), [77; 32])
            && is_chroma::<4, 8, 32>(&p, (0, 0), (3, -5), [77; 32])
            && is_chroma::<4, 4, 16>(&p, (0, 0), (3, -5), [77; 16])
            && is_chroma::<4, 2, 8>(&p, (0, 0), (3, -5), [77; 8])
            && is_chroma::<2, 4, 8>(&p, (0, 0), (3, -5), [77; 8])
            && is_chroma::<2, 2, 4>(&p, (0, 0), (3, -5), [77; 4]),
    )
}

/// Whether a sample of 200 becomes this one.
fn is_weighted(log2_weight_denom: u8, weight: i16, offset: i16, expected: u8) -> bool
    requires { IsInRange (record { log2_weight_denom = log2_weight_denom; weight = weight; offset = offset }) }
{
    let mut samples = [200];
    let weight = Weight {
        log2_weight_denom,
        weight,
        offset,
    };
    weigh::<1>(&mut samples, 0, weight);
    samples == [expected]
}

fn weighted_samples() -> bool {
    // No denominator: 200 - 128. Then (200 + 1) >> 1 is 100, (200 * 3 + 2) >> 2 is 150, and (200 * 50 + 32) >> 6 is 156.
    let rounded = is_weighted(0, 1, -128, 72)
        && is_weighted(1, 1, 0, 100)
        && is_weighted(2, 3, 5, 155)
        && is_weighted(6, 50, -6, 150);
    // Below 0, and above 255.
    rounded && is_weighted(5, -1, 6, 0) && is_weighted(7, 127, 127, 255)
}
