/// A frame in the buffer, which names its picture by an `N`.
#[derive(Clone, Copy, Default)]
pub struct Entry<N> {
    pub of: N,
    /// PicOrderCnt of the frame.
    pub count: i32,
    /// It waits for output.
    pub waiting: bool,
    /// It is used for reference.
    pub reference: bool,
}

/// The part of a frame that is shown: how many chroma samples lie outside it on each side, and of luma samples twice as many (frame_crop_left_offset
/// and the like, 7.4.2.1.1).
#[derive(Clone, Copy, Default)]
pub struct Rectangle {
    pub left: usize,
    pub right: usize,
    pub top: usize,
    pub bottom: usize,
}

/// The number of a picture in decoding order, the place of its frame, and what is shown of it.
#[derive(Clone, Copy, Default)]
pub struct Placed {
    pub picture: u64,
    pub place: usize,
    pub rectangle: Rectangle,
}

/// What is stored.
#[derive(Clone, Copy)]
pub enum Kind {
    /// A picture that is used for reference.
    Reference,
    /// A picture that is not.
    Other,
    /// The frame of a missing frame_num, which does not exist (8.2.5.2).
    Missing,
}

/// A picture that has ended, or the frame of a missing frame_num, once it is marked.
#[derive(Drop)]
pub struct Picture<'a> {
    pub kind: Kind,
    pub of: Placed,
    pub count: i32,
    /// What is held for reference, it among them: the number of each picture, and none for a frame that does not exist.
    pub held: &'a [Option<u64>],
}
