ghost use Rattle.std.specs.Prelude.{◌≡◌, ◌-◌, ◌<◌, ◌≤◌, ◌^◌, OnOk, IfOk, IsTrue};
ghost use Rattle.h264_dpb.specs.Shown.{is_shown};
ghost use Rattle.h264_plane.specs.Frames.{lent_by};
ghost use Rattle.h264_dpb.specs.Buffered.{AreReady};

use h264_base::{ElementName, Elements, Failed, Stop};
use h264_dpb::{Buffer, FrameOut, Kind, Picture, Placed, Rectangle};
use h264_plane::{Frame, FrameStore, Pool};
use std::alloc::AllocError;
use std::process::Abort;

/// Keeps the counts of the frames that it takes, in order, and refuses the frames after so many.
#[derive(Drop)]
struct Counts {
    told: [i32; 8],
    taken: usize,
    most: usize,
    failures: u64,
    /// The first sample of Cb that was shown last.
    sample: u8,
}

impl Elements for Counts {
    ghost took = { λ _ _. Unit {0} };

    ghost failures = { λ s. s.failures };

    fn element(&mut self, _name: ElementName, _bit: u64, _value: i64) -> Result<(), Failed> {
        self.failures += 1;
        Err(Failed)
    }
}

impl FrameOut for Counts {
    fn frame(&mut self, count: i32, frame: &Frame, rectangle: Rectangle) -> Result<(), Failed> {
        if self.taken >= self.most || self.taken >= 8 {
            self.failures += 1;
            return Err(Failed);
        }
        self.told[self.taken] = count;
        self.taken += 1;
        let (x, y) = (rectangle.left, rectangle.top);
        if x < frame.cb.width() && y < frame.cb.height() {
            self.sample = frame.cb.get(x, y);
        }
        Ok(())
    }
}

fn sink(most: usize) -> Counts
    ensures { result.failures ≡ 0 }
{
    Counts {
        told: [0; 8],
        taken: 0,
        most,
        failures: 0,
        sample: 0,
    }
}

const WHOLE: Rectangle = Rectangle {
    left: 0,
    right: 0,
    top: 0,
    bottom: 0,
};

/// A pool of frames of 16 by 16.
fn pool(rt: &(impl Abort + AllocGlobal)) -> Result<Pool, AllocError> {
    Pool::new(rt.alloc(), 4, 16, 16)
}

/// The picture of this number, at the place of that number.
fn placed(rt: &impl Abort, pool: &Pool, picture: usize, rectangle: Rectangle) -> Placed
    ensures { IsTrue (is_shown (lent_by pool.now) result) }
{
    assert!(rt; picture < pool.len());
    let frame = pool.frame(picture);
    assert_eq!(rt; frame.y.width(), 16);
    assert_eq!(rt; frame.y.height(), 16);
    assert_eq!(rt; frame.cb.width(), 8);
    assert_eq!(rt; frame.cb.height(), 8);
    assert_eq!(rt; frame.cr.width(), 8);
    assert_eq!(rt; frame.cr.height(), 8);
    assert!(rt; rectangle.left < 4);
    assert!(rt; rectangle.right < 4);
    assert!(rt; rectangle.top < 4);
    assert!(rt; rectangle.bottom < 4);
    Placed {
        picture: picture as u64,
        place: picture,
        rectangle,
    }
}

/// Stores a picture that is not used for reference.
fn put(
    rt: &impl Abort,
    buffer: &mut Buffer,
    pool: &Pool,
    picture: usize,
    count: i32,
    sink: &mut Counts,
) -> Result<(), Stop>
    requires ready { AreReady (lent_by pool.now) buffer.old.entries }
    ensures ready { OnOk result (AreReady (lent_by pool.now) buffer.new.entries) }
{
    assert!(rt; sink.failures < 100);
    let picture = Picture {
        kind: Kind::Other,
        of: placed(rt, pool, picture, WHOLE),
        count,
        held: &[Some(0)],
    };
    buffer.store(pool, &picture, sink)
}

/// A buffer of this size with an IDR picture of count 0, which is used for reference.
fn begun(rt: &impl Abort, size: usize, pool: &Pool, sink: &mut Counts) -> Result<Buffer, Stop>
    requires size { (0 < size) × (size ≤ 16) }
    ensures ready { IfOk result (λ b. AreReady (lent_by pool.now) b.entries) }
{
    let mut buffer = Buffer::new();
    assert!(rt; sink.failures < 100);
    buffer.flush(pool, true, size, sink)?;
    let first = Picture {
        kind: Kind::Reference,
        of: placed(rt, pool, 0, WHOLE),
        count: 0,
        held: &[Some(0)],
    };
    assert!(rt; sink.failures < 100);
    buffer.store(pool, &first, sink)?;
    Ok(buffer)
}

/// An IDR picture and two that follow, of counts 0, 8 and 4, in a buffer of this size, and the end of the input.
fn three(rt: &impl Abort, size: usize, pool: &Pool, sink: &mut Counts) -> Result<(), Stop>
    requires size { (0 < size) × (size ≤ 16) }
{
    let mut buffer = begun(rt, size, pool, sink)?;
    put(rt, &mut buffer, pool, 1, 8, sink)?;
    put(rt, &mut buffer, pool, 2, 4, sink)?;
    assert!(rt; sink.failures < 100);
    buffer.flush(pool, true, size, sink)
}

// With one place, which the reference keeps, the others are written as they come. With two, the one of count 8 waits.
#[test]
fn order_of_output(rt: HostRuntime) -> Result<(), AllocError> {
    let pool = pool(&rt)?;
    let mut one = sink(8);
    assert!(rt; three(&rt, 1, &pool, &mut one).is_ok());
    assert_eq!(rt; &one.told[..one.taken.min(8)], [0, 8, 4].as_slice());
    let mut two = sink(8);
    assert!(rt; three(&rt, 2, &pool, &mut two).is_ok());
    assert_eq!(rt; &two.told[..two.taken.min(8)], [0, 4, 8].as_slice());

    // Each frame refused in turn: those before it were taken.
    for most in 0..3 {
        let mut some = sink(most);
        match three(&rt, 2, &pool, &mut some) {
            Err(Stop::Write) => assert_eq!(rt; some.taken, most),
            _ => assert!(rt; false),
        }
        assert_eq!(rt; some.failures, 1);
    }
    Ok(())
}

/// The frame of a missing frame_num in a buffer of one place, and a picture after it.
fn gap(rt: &impl Abort, pool: &Pool, sink: &mut Counts) -> Result<(), Stop> {
    let mut buffer = Buffer::new();
    assert!(rt; sink.failures < 100);
    buffer.flush(pool, false, 1, sink)?;
    let missing = Picture {
        kind: Kind::Missing,
        of: Placed::default(),
        count: 0,
        held: &[None],
    };
    assert!(rt; !buffer.is_steady(missing.held));
    assert!(rt; sink.failures < 100);
    buffer.store(pool, &missing, sink)?;
    assert!(rt; buffer.is_steady(missing.held));
    put(rt, &mut buffer, pool, 1, 5, sink)
}

/// A picture of which a part is shown, in a buffer of one place, and the end of the input.
fn part(rt: &impl Abort, pool: &Pool, sink: &mut Counts) -> Result<(), Stop> {
    let mut buffer = Buffer::new();
    let picture = Picture {
        kind: Kind::Other,
        of: placed(
            rt,
            pool,
            2,
            Rectangle {
                left: 3,
                right: 1,
                top: 2,
                bottom: 0,
            },
        ),
        count: 7,
        held: &[],
    };
    assert!(rt; sink.failures < 100);
    buffer.store(pool, &picture, sink)?;
    assert_eq!(rt; buffer.entries().len(), 1);
    assert_eq!(rt; buffer.free_place(2, 2), Some(3));
    assert!(rt; sink.failures < 100);
    buffer.flush(pool, true, 1, sink)
}

// A frame that does not exist takes the only place and is never written, so the picture after it is written at once. In the picture with a rectangle
// the first sample that is shown is the one at column 3 of row 2 of chroma.
#[test]
fn gaps_and_rectangles(rt: HostRuntime) -> Result<(), AllocError> {
    let mut pool = pool(&rt)?;
    let mut some = sink(8);
    assert!(rt; gap(&rt, &pool, &mut some).is_ok());
    assert_eq!(rt; &some.told[..some.taken.min(8)], [5].as_slice());
    let mut frame = Frame::new(rt.alloc(), 16, 16)?;
    frame.cb.set(3, 2, 77);
    assert!(rt; pool.len() > 2);
    pool.put_back(2, frame);
    assert!(rt; part(&rt, &pool, &mut some).is_ok());
    assert_eq!(rt; &some.told[..some.taken.min(8)], [5, 7].as_slice());
    assert_eq!(rt; some.sample, 77);
    Ok(())
}
