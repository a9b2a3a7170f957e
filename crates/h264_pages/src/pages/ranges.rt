//! What values the syntax elements may have in the profile (7.4).
#![tactic(auto)]

use h264_base::ElementName;

/// The range of an element of a parameter set; none where it depends on more than the element, or all values are allowed.
fn set_range(name: ElementName) -> Option<&'static str> {
    match name {
        ElementName::LevelIdc => Some("9 to 13, 20 to 22, 30 to 32, 40 to 42, 50 to 52"),
        ElementName::SeqParameterSetId => Some("0 to 31"),
        ElementName::Log2MaxFrameNumMinus4 => Some("0 to 12"),
        ElementName::PicOrderCntType => Some("0 to 2"),
        ElementName::Log2MaxPicOrderCntLsbMinus4 => Some("0 to 12"),
        ElementName::NumRefFramesInPicOrderCntCycle => Some("0 to 255"),
        ElementName::MaxNumRefFrames => Some("0 to 16"),
        ElementName::CpbCntMinus1 => Some("0 to 31"),
        ElementName::PicParameterSetId => Some("0 to 255"),
        ElementName::NumRefIdxL0DefaultActiveMinus1 => Some("0 to 31"),
        ElementName::NumRefIdxL1DefaultActiveMinus1 => Some("0 to 31"),
        ElementName::PicInitQpMinus26 => Some("-26 to 25"),
        ElementName::PicInitQsMinus26 => Some("-26 to 25"),
        ElementName::ChromaQpIndexOffset => Some("-12 to 12"),
        _ => None,
    }
}

/// The range of an element of a slice; none where it depends on more than the element, or all values are allowed.
fn slice_range(name: ElementName) -> Option<&'static str> {
    match name {
        ElementName::SliceType => Some("0, 2, 5 or 7"),
        ElementName::IdrPicId => Some("0 to 65535"),
        ElementName::NumRefIdxL0ActiveMinus1 => Some("0 to 15"),
        ElementName::NumRefIdxActiveOverrideFlag => {
            Some("1 where the picture parameter set gives more than 16 pictures")
        }
        ElementName::ModificationOfPicNumsIdc => {
            Some("0 to 3, and at most as many modifications as the list has pictures")
        }
        ElementName::AbsDiffPicNumMinus1 => Some("0 to MaxFrameNum - 1"),
        ElementName::MemoryManagementControlOperation => {
            Some("0 to 6, each in its place, and at most 36 of them")
        }
        ElementName::DisableDeblockingFilterIdc => Some("0 to 2"),
        ElementName::SliceAlphaC0OffsetDiv2 => Some("-6 to 6"),
        ElementName::SliceBetaOffsetDiv2 => Some("-6 to 6"),
        ElementName::MbSkipRun => Some("0 to the number of macroblocks left in the picture"),
        ElementName::MbType => Some("0 to 25 in an I slice, 0 to 30 in a P slice"),
        ElementName::SubMbType => Some("0 to 3"),
        ElementName::IntraChromaPredMode => Some("0 to 3"),
        ElementName::RefIdxL0 => Some("0 to the number of pictures in the list, less one"),
        ElementName::MvdL0 => Some("-8192 to 8191, in quarter samples"),
        ElementName::MbQpDelta => Some("-26 to 25"),
        _ => None,
    }
}

/// The range of an element, as a text.
pub fn range_of(name: ElementName) -> Option<&'static str> {
    let found = set_range(name);
    if found.is_some() {
        return found;
    }
    slice_range(name)
}

/// The values of an element that the profile has a tool for (A.2.1.1).
pub fn tool_range_of(name: ElementName) -> &'static str {
    match name {
        ElementName::FrameMbsOnlyFlag => "1: frames alone, no interlace",
        ElementName::EntropyCodingModeFlag => "0: CAVLC, not CABAC",
        ElementName::NumSliceGroupsMinus1 => "0: one slice group",
        ElementName::WeightedPredFlag => "0: no weighted prediction",
        ElementName::WeightedBipredIdc => "0: no weighted prediction",
        ElementName::RedundantPicCntPresentFlag => "0: no redundant slices",
        ElementName::SliceType => "0 or 5 (P), 2 or 7 (I)",
        _ => "a value of the profile's tools",
    }
}
