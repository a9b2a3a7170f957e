use h264_plane::{Component, Frame, Plane, Pool, beside, eight, narrow, sixteen, widened};
use std::alloc::{AllocError, Global};

#[test]
fn planes(rt: HostRuntime) -> Result<(), AllocError> {
    assert!(rt; a_new_plane_is_zero(rt.alloc())?);
    assert!(rt; writes_stay_in_their_rows(rt.alloc())?);
    assert!(rt; edges_run_both_ways(rt.alloc())?);
    Ok(())
}

#[test]
fn frames(rt: HostRuntime) -> Result<(), AllocError> {
    assert!(rt; a_frame_has_three_planes(rt.alloc())?);
    assert!(rt; one_frame_is_written_while_another_is_read(rt.alloc())?);
    Ok(())
}

#[test]
fn vectors(rt: HostRuntime) {
    assert!(rt; halves_change_places());
}

/// The samples of a row as a number in base 10, each sample being a digit.
fn digits(row: &[u8]) -> u64 {
    let mut all = 0u64;
    for sample in row {
        all = all.wrapping_mul(10).wrapping_add(u64::from(*sample));
    }
    all
}

fn a_new_plane_is_zero(alloc: Global) -> Result<bool, AllocError> {
    let p = Plane::new(alloc, 3, 2)?;
    let none = Plane::none(alloc);
    let sizes = p.width() == 3 && p.height() == 2 && none.width() == 0;
    Ok(sizes && digits(p.row(0)) == 0 && p.row(1).len() == 3)
}

fn writes_stay_in_their_rows(alloc: Global) -> Result<bool, AllocError> {
    let mut p = Plane::new(alloc, 5, 4)?;
    p.put_run(1, 0, &[1, 2, 3]);
    p.set(4, 1, 9);
    p.put_block::<2, 2>(3, 2, &[4, 5, 6, 7]);
    let written = digits(p.samples()) == 1_230_000_090_004_500_067;
    Ok(written && digits(p.row(2)) == 45 && p.get(4, 2) == 5)
}

fn edges_run_both_ways(alloc: Global) -> Result<bool, AllocError> {
    let mut p = Plane::new(alloc, 4, 3)?;
    p.put::<true>(2, 1, 7);
    p.put::<false>(3, 0, 8);
    let written = digits(p.samples()) == 800_000_700;
    Ok(written && p.look::<true>(2, 1) == 7 && p.look::<false>(1, 2) == 7)
}

/// Whether chroma has half the sides of luma, of 32 by 16.
fn has_sizes(f: &Frame) -> bool {
    f.width() == 32
        && f.height() == 16
        && f.plane(Component::Cb).width() == 16
        && f.plane(Component::Cr).height() == 8
}

fn a_frame_has_three_planes(alloc: Global) -> Result<bool, AllocError> {
    let mut f = Frame::new(alloc, 32, 16)?;
    let sizes = has_sizes(&f);
    f.put_block::<4, 1>(Component::Cr, 12, 7, &[1, 2, 3, 4]);
    f.plane_mut(Component::Cb).set(15, 7, 5);
    let chroma = digits(f.row(Component::Cb, 7)) == 5 && digits(f.row(Component::Cr, 7)) == 1234;
    Ok(sizes && chroma && digits(f.row(Component::Y, 7)) == 0)
}

fn one_frame_is_written_while_another_is_read(alloc: Global) -> Result<bool, AllocError> {
    let none = Pool::none(alloc);
    let mut pool = Pool::new(alloc, 3, 16, 16)?;
    let counts = none.len() == 0 && pool.len() == 3 && !pool.is_empty();
    pool.frame_mut(2).plane_mut(Component::Y).set(0, 0, 6);
    let mut current = pool.take(1);
    let sample = pool.frame(2).plane(Component::Y).get(0, 0);
    current.put_block::<1, 1>(Component::Y, 0, 0, &[sample + 1]);
    pool.put_back(1, current);
    let (first, last) = (pool.frame(0).y.get(0, 0), pool.frame(2).y.get(0, 0));
    Ok(counts && first == 0 && pool.frame(1).y.get(0, 0) == 7 && last == 6)
}

fn halves_change_places() -> bool {
    let samples = [9, 1, 2, 3, 4, 5, 6, 7, 8, 8, 7, 6, 5, 4, 3, 2, 1];
    let whole = sixteen(&samples, 1);
    let turned = beside(eight(&samples, 9), eight(&samples, 1));
    digits(&whole.to_array()) == 1_234_567_887_654_321
        && digits(&narrow(widened(whole)).to_array()) == 1_234_567_887_654_321
        && digits(&turned.to_array()) == 8_765_432_112_345_678
}
