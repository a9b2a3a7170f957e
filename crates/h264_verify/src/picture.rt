//! The picture to which more slices may come.
#![tactic(auto)]

ghost use Rattle.std.specs.Prelude.{◌≡◌, ◌-◌, ◌||◌, ◌==◌, List, [], ◌∷◌, Option, Some, None, true, IsTrue};
ghost use Rattle.h264_verify.specs.Pictures.{CodedSlice, CodedPicture, bit_after};
ghost use Rattle.h264_marking.specs.Ended.{numbering_of};
ghost use Rattle.h264_verify.specs.Slices.{is_i};
ghost use Rattle.h264_verify.specs.Buffering.{ended_picture};
ghost use Rattle.h264_verify.specs.Keeping.{types_of, HoldsPicture, HoldsOpen, HoldsEnd, begins_by, types_by, agrees_by};

use h264_bits::Found;
use h264_dpb::Ended;
use h264_header::{Header, Marking, PictureElements, SliceKind, begins_picture, picture_elements};
use h264_marking::{Numbering, is_window};
use std::mem;

/// Which types the slices of a picture have.
#[derive(Clone, Copy)]
pub struct Types {
    /// There is an I slice among them.
    pub i: bool,
    /// There is a P slice among them.
    pub p: bool,
    /// One says that all have its type.
    pub stated: bool,
}

/// The picture to which more slices may come.
#[derive(Drop)]
pub struct OpenPicture {
    /// The marking that its first slice gives.
    pub marking: Option<Found<Marking>>,
    /// The elements of its last slice by which the next one begins a picture.
    pub last: PictureElements,
    /// The types of its slices so far.
    pub types: Types,
    /// Its frame_num, with what it is counted by.
    pub numbering: Numbering,
    /// What its end tells the buffer of frames.
    pub ended: Ended,
    /// The first stream bit after its last slice's unit.
    pub following: u64,
}

/// Whether a slice is an I slice.
pub(crate) fn is_i(kind: &SliceKind) -> bool
    ensures { result ≡ is_i kind.now }
{
    match kind {
        SliceKind::I => true,
        SliceKind::P(_) => false,
    }
}

/// Whether a slice is the first of a picture, after the slices of this one, if more may come to it (7.4.1.2.4).
pub fn begins(picture: &Option<OpenPicture>, header: &Header) -> bool
    ensures { result ≡ begins_by picture.now header.now }
{
    match picture {
        None => true,
        Some(picture) => begins_picture(&picture.last, &picture_elements(header)),
    }
}

/// The types of the slices of a picture that may go on.
pub(crate) fn seen_types(picture: &Option<OpenPicture>) -> Types
    ensures { result ≡ types_by picture.now }
{
    match picture {
        None => Types {
            i: false,
            p: false,
            stated: false,
        },
        Some(picture) => picture.types,
    }
}

/// The types with that of one more slice.
fn types_with(types: Types, header: &Header) -> Types
    ensures { (slices : List CodedSlice) (slice : CodedSlice) → slice.header ≡ header.now → types ≡ types_of slices → result ≡ types_of (slice ∷ slices) }
{
    let i = is_i(&header.kind.value);
    Types {
        i: i || types.i,
        p: !i || types.p,
        stated: header.same_type_in_picture || types.stated,
    }
}

/// Whether the type of one more slice agrees with those of a picture.
pub(crate) fn agrees(types: Types, header: &Header) -> bool
    ensures { result ≡ agrees_by types header.now }
{
    let other = if is_i(&header.kind.value) {
        types.p
    } else {
        types.i
    };
    !(header.same_type_in_picture || types.stated) || !other
}

/// Keeps the marking of a picture's first slice in place of another, which goes to its place; from one sliding window, the
/// most frequent marking, to the next the bit alone changes.
fn keep_marking(kept: &mut Option<Found<Marking>>, marking: &mut Option<Found<Marking>>)
    ensures { kept.new ≡ marking.old }
{
    if let (Some(old), Some(new)) = (&mut *kept, &*marking) {
        if is_window(&old.value) && is_window(&new.value) {
            old.bit = new.bit;
            return;
        }
    }
    mem::swap(kept, marking);
}

/// A picture that has begun with this slice.
#[inline(never)]
fn begun(header: &mut Header, numbering: Numbering, ended: Ended, following: u64) -> OpenPicture
    ensures holds { (slice : CodedSlice) → slice.header ≡ header.old → numbering ≡ numbering_of slice.sps slice.header →
        following ≡ bit_after slice.unit → HoldsPicture (record { first = slice; later = [] }) result }
    ensures end { result.ended ≡ ended }
    ensures header { header.new ≡ record header.old { marking = header.new.marking } }
{
    let types = types_with(seen_types(&None), header);
    OpenPicture {
        marking: mem::replace(&mut header.marking, None),
        last: picture_elements(header),
        types,
        numbering,
        ended,
        following,
    }
}

/// A picture that begins with this slice, in the place of the one before.
fn restart(
    picture: &mut OpenPicture,
    header: &mut Header,
    numbering: Numbering,
    ended: Ended,
    following: u64,
)
    ensures holds { (slice : CodedSlice) → slice.header ≡ header.old → numbering ≡ numbering_of slice.sps slice.header →
        following ≡ bit_after slice.unit → HoldsPicture (record { first = slice; later = [] }) picture.new }
    ensures end { picture.new.ended ≡ ended }
    ensures header { header.new ≡ record header.old { marking = header.new.marking } }
{
    picture.types = types_with(seen_types(&None), header);
    picture.last = picture_elements(header);
    keep_marking(&mut picture.marking, &mut header.marking);
    picture.numbering = numbering;
    picture.ended = ended;
    picture.following = following;
}

/// A picture begins with this slice, where another may have gone on.
pub(crate) fn begin(
    picture: &mut Option<OpenPicture>,
    header: &mut Header,
    numbering: Numbering,
    ended: Ended,
    following: u64,
)
    ensures holds { (slice : CodedSlice) → slice.header ≡ header.old → numbering ≡ numbering_of slice.sps slice.header →
        following ≡ bit_after slice.unit → HoldsOpen (Some (record { first = slice; later = [] })) picture.new }
    ensures end { (slice : CodedSlice) (pictures : List CodedPicture) → ended ≡ ended_picture (record { first = slice; later = [] }) pictures →
        HoldsEnd (record { first = slice; later = [] } ∷ pictures) picture.new }
    ensures header { header.new ≡ record header.old { marking = header.new.marking } }
{
    match picture {
        None => *picture = Some(begun(header, numbering, ended, following)),
        Some(picture) => restart(picture, header, numbering, ended, following),
    }
}

/// One more slice comes to a picture.
pub(crate) fn go_on(picture: &mut OpenPicture, header: &Header, following: u64)
    ensures end { picture.new.ended ≡ picture.old.ended }
    ensures holds { (p : CodedPicture) (slice : CodedSlice) → slice.header ≡ header.now → following ≡ bit_after slice.unit →
        HoldsPicture p picture.old →
        HoldsPicture (record p { later = slice ∷ p.later }) picture.new }
{
    picture.types = types_with(picture.types, header);
    picture.last = picture_elements(header);
    picture.following = following;
}
