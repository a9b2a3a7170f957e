/// Which sides of a macroblock intra prediction may use (6.4.9, 8.3.3, 8.3.4).
#[derive(Clone, Copy, Debug, PartialEq, Eq)]
pub struct Sides {
    pub left: bool,
    pub above: bool,
    /// The sample above and to the left.
    pub corner: bool,
}

/// Which sides of a 4x4 luma block intra prediction may use (6.4.11.4, 8.3.1.2).
#[derive(Clone, Copy, Debug, PartialEq, Eq)]
pub struct Sides4 {
    pub left: bool,
    pub above: bool,
    pub above_right: bool,
    /// The sample above and to the left.
    pub corner: bool,
}
