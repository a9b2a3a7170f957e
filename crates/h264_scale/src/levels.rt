/// The levels of Intra_16x16 luma by place of the scan: Intra16x16DCLevel, and Intra16x16ACLevel by number of the block (6.4.3).
#[derive(Clone, Copy)]
pub struct LumaWithDc {
    pub dc: [i16; 16],
    pub ac: [[i16; 15]; 16],
}

/// The levels of luma (7.3.5.3).
#[derive(Clone, Copy)]
pub enum LumaLevels {
    /// All are 0.
    NotCoded,
    /// LumaLevel4x4, by number of the block (6.4.3) and place of the scan.
    Blocks([[i16; 16]; 16]),
    WithDc(LumaWithDc),
}

/// The levels of a chroma plane: ChromaDCLevel, and ChromaACLevel by number of the block and place of the scan.
#[derive(Clone, Copy)]
pub struct ChromaWithDc {
    pub dc: [i16; 4],
    pub ac: [[i16; 15]; 4],
}

/// The levels of a chroma plane (7.3.5.3).
#[derive(Clone, Copy)]
pub enum ChromaLevels {
    /// All are 0.
    NotCoded,
    WithDc(ChromaWithDc),
}

/// The transform coefficient levels of a macroblock, 0 where none were coded, and its quantisation parameters: QP'Y and, of each
/// chroma plane, QP'C. They are at most 51.
#[derive(Clone, Copy)]
pub struct Levels {
    pub luma: LumaLevels,
    pub cb: ChromaLevels,
    pub cr: ChromaLevels,
    pub qp: u8,
    pub qp_cb: u8,
    pub qp_cr: u8,
}
