//! Headers with the rule that each breaks, worked by hand from the standard's tables.
#![tactic(auto)]

use h264_base::Rule;

/// A header, written as 0 and 1, with the rule that it breaks and its bit in the RBSP, if it breaks one.
pub type Case = (&'static str, Option<(u64, Rule)>);

/// The rule that most of them break.
pub const RANGE: Rule = Rule::Range;

/// slice_type, pic_parameter_set_id and frame_num; a P slice of type 5 else.
pub const FRONT: &[Case] = &[
    ("1 1 1 0001 0 0 0 1", None),
    ("1 011 1 0001 0 1", None),
    ("1 00110 1 0001 0 0 0 1", None),
    ("1 0001000 1 0001 0 1", None),
    ("1 010 1", Some((1, Rule::Tool))),
    ("1 00100 1", Some((1, Rule::Tool))),
    ("1 00101 1", Some((1, Rule::Tool))),
    ("1 00111 1", Some((1, Rule::Tool))),
    ("1 0001001 1", Some((1, Rule::Tool))),
    ("1 0001010 1", Some((1, Rule::Tool))),
    ("1 0001011 1", Some((1, RANGE))),
    ("1 00110 000000010000000 0", Some((6, Rule::NoSet))),
    ("1 00110 00000000100000000", Some((6, Rule::NoSet))),
    ("1 00110 00000000100000001", Some((6, Rule::NoSet))),
    ("1 00110 1", Some((7, Rule::CodeWord))),
    ("1 00110 1 0001 0 0 0 0", Some((14, Rule::CodeWord))),
];

/// What goes with a reference picture list, of one place and MaxFrameNum 16 unless said otherwise.
pub const LIST: &[Case] = &[
    ("1 00110 1 0001 1 000010000 0 0 1", None),
    ("1 00110 1 0001 1 000010001 0 0 1", Some((12, RANGE))),
    ("1 00110 1 0001 0 1 00100 0 1", Some((13, RANGE))),
    ("1 00110 1 0001 0 1 00101 0 1", Some((13, RANGE))),
    ("1 00110 1 0001 0 1 1 000010000 00100 0 1", None),
    (
        "1 00110 1 0001 0 1 1 000010001 00100 0 1",
        Some((14, RANGE)),
    ),
    (
        "1 00110 1 0001 0 1 010 000010001 00100 0 1",
        Some((16, RANGE)),
    ),
    ("1 00110 1 0001 0 1 011 000010001 00100 0 1", None),
    ("1 00110 1 0001 0 1 1 1 1 1 00100 0 1", Some((15, RANGE))),
    ("1 00110 1 0001 1 010 0 1 1 1 1 00100 0 1", None),
    ("1 00110 1 0001 1 010 1 1 1 1 1 00100 0 1", None),
    (
        "1 00110 1 0001 1 010 1 1 1 1 1 1 1 00100 0 1",
        Some((20, RANGE)),
    ),
];

/// A list whose length by default is 17.
pub const LONG_LIST: &[Case] = &[
    ("1 00110 1 0001 0 0 0 1", Some((11, RANGE))),
    ("1 00110 1 0001 1 1 0 0 1", None),
];

/// A list whose length by default is 16.
pub const FULL_LIST: &[Case] = &[("1 00110 1 0001 0 0 0 1", None)];

/// Marking operations.
pub const MARKING: &[Case] = &[
    ("1 00110 1 0001 0 0 1 1 1", None),
    ("1 00110 1 0001 0 0 1 0001000 1", Some((14, RANGE))),
    (
        "1 00110 1 0001 0 0 1 00101 1 00101 1 1 1",
        Some((20, RANGE)),
    ),
    ("1 00110 1 0001 0 0 1 00110 00110 1 1", Some((19, RANGE))),
    (
        "1 00110 1 0001 0 0 1 00111 1 00111 1 1 1",
        Some((20, RANGE)),
    ),
    (
        "1 00110 1 0001 0 0 1 00101 1 00110 00111 1 010 1 011 1 00100 1 1 1 1",
        None,
    ),
];

/// The deblocking filter's control.
pub const DEBLOCKING: &[Case] = &[
    ("1 011 1 0001 0 1 1 0001100 0001101", None),
    ("1 011 1 0001 0 1 010", None),
    ("1 011 1 0001 0 1 011 0001101 0001100", None),
    ("1 011 1 0001 0 1 00100 1 1", Some((11, RANGE))),
    ("1 011 1 0001 0 1 1 0001110 1", Some((12, RANGE))),
    ("1 011 1 0001 0 1 1 0001111 1", Some((12, RANGE))),
    ("1 011 1 0001 0 1 1 1 0001110", Some((13, RANGE))),
    ("1 011 1 0001 0 1 1 1 0001111", Some((13, RANGE))),
];

/// The table of weights of P slices whose picture parameter set has weighted_pred_flag 1.
pub const WEIGHTS: &[Case] = &[
    ("1 00110 1 0001 0 0 1 1 0 0 0 1", None),
    ("1 011 1 0001 0 1", None),
    ("1 00110 1 0001 0 0 0001000 0001000 0 0 0 1", None),
    ("1 00110 1 0001 0 0 0001001 1", Some((13, RANGE))),
    ("1 00110 1 0001 0 0 1 0001001 1", Some((14, RANGE))),
    (
        "1 00110 1 0001 0 0 1 1 1 000000011111110 00000000100000001 0 0 1",
        None,
    ),
    (
        "1 00110 1 0001 0 0 1 1 1 00000000100000001 000000011111110 0 0 1",
        None,
    ),
    (
        "1 00110 1 0001 0 0 1 1 1 00000000100000000 1",
        Some((16, RANGE)),
    ),
    (
        "1 00110 1 0001 0 0 1 1 1 00000000100000011 1",
        Some((16, RANGE)),
    ),
    (
        "1 00110 1 0001 0 0 1 1 1 1 00000000100000000",
        Some((17, RANGE)),
    ),
    (
        "1 00110 1 0001 0 0 1 1 0 1 1 1 00000000100000000 1",
        Some((19, RANGE)),
    ),
    (
        "1 00110 1 0001 0 0 1 1 0 1 1 1 1 00000000100000011",
        Some((20, RANGE)),
    ),
    ("1 00110 1 0001 0 1 1 1 00100 0001001 1", Some((20, RANGE))),
    (
        "1 00110 1 0001 1 010 0 1 1 0 0 1 00000000100000000 1",
        Some((21, RANGE)),
    ),
    ("1 00110 1 0001 1 010 0 1 1 0 0 0 0 0 1", None),
];

/// idr_pic_id.
pub const IDR_PIC_ID: &[Case] = &[
    (
        "1 011 1 0000 0000000000000000 1 0000000000000000 1 0 1",
        None,
    ),
    (
        "1 011 1 0000 0000000000000000 1 0000000000000001 1 0 1",
        Some((9, RANGE)),
    ),
];
