//! Slice headers (7.3.3, 7.4.3), and where a picture begins (7.4.1.2.4).
//!
//! `read_header` takes the RBSP of a unit of nal_unit_type 1 or 5, with the parameter sets that are there, up to the end of
//! the header, and gives each value in it with the bits at which later rules are named, or the first rule that it breaks.
//! It promises that the header derives in the grammar of `specs/Header.antt`; the sink is told each element as soon as its
//! code word was read. `begins_picture` is the standard's comparison of the `picture_elements` of two
//! headers, and `same_marking` that of their marking. `weights_of` gives the weights of a reference index.
//! Rules that look at other slices or at held pictures are not judged here.
#![tactic(auto)]

pub mod header;
pub mod laws;
mod layout;
mod marking;
mod picture;
mod read;
mod ref_list;
mod same;
mod weights;

pub use header::{
    Deblocking, FilterOffsets, Header, IndexWeights, Marking, MarkingOperation, Modification,
    Operation, PicNumModification, PicOrderCnt, PictureElements, PredWeightTable, RefPicList0,
    SliceKind, SliceUnit,
};
pub use layout::named_sets;
pub use picture::{begins_picture, picture_elements};
pub use read::read_header;
pub use same::same_marking;
pub use weights::weights_of;
