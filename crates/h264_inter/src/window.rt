use std::simd::prelude::*;

/// Six rows of eight numbers, each below the one before: values across, or samples, of which all rows but the last are added to the one below.
#[derive(Clone, Copy)]
pub struct Window {
    pub e: u16x8,
    pub f: u16x8,
    pub g: u16x8,
    pub h: u16x8,
    pub i: u16x8,
    pub j: u16x8,
}

/// The windows of a block's first eight columns and of those beyond. A block of up to eight columns uses the left one alone.
#[derive(Clone, Copy)]
pub struct Windows {
    pub left: Window,
    pub right: Window,
}

/// Eight samples of a row, and the eight from one column further on.
#[derive(Clone, Copy)]
pub struct Pair {
    pub a: u16x8,
    pub b: u16x8,
}

/// The pairs of a block's first eight columns, and of its other columns. A block of up to eight columns uses the left one alone.
#[derive(Clone, Copy)]
pub struct Pairs {
    pub left: Pair,
    pub right: Pair,
}
