//! The header of YUV4MPEG2.
#![tactic(auto)]

ghost use Rattle.std.specs.Prelude.{◌≡◌, true, false};

/// The shape of a sample as it is shown: its width by its height.
#[derive(Clone, Copy, PartialEq, Eq)]
pub struct Aspect {
    pub width: u64,
    pub height: u64,
}

/// The shapes of aspect_ratio_idc 1 and up (Table E-1), width by height.
const ASPECTS: [(u64, u64); 16] = [
    (1, 1),
    (12, 11),
    (10, 11),
    (16, 11),
    (40, 33),
    (24, 11),
    (20, 11),
    (32, 11),
    (80, 33),
    (18, 11),
    (15, 11),
    (64, 33),
    (160, 99),
    (4, 3),
    (3, 2),
    (2, 1),
];

/// The aspect_ratio_idc Extended_SAR, with which sar_width and sar_height say the shape (Table E-1).
const EXTENDED_SAR: u64 = 255;

impl Aspect {
    /// The shape that the VUI says (E.2.1). None where it is not specified, as with a sar_width or a sar_height of 0, or reserved.
    pub fn of(aspect_ratio_idc: u64, sar_width: u64, sar_height: u64) -> Option<Aspect> {
        if aspect_ratio_idc == EXTENDED_SAR {
            let is_given = sar_width != 0 && sar_height != 0;
            return is_given.then_some(Aspect {
                width: sar_width,
                height: sar_height,
            });
        }
        let place = usize::try_from(aspect_ratio_idc.checked_sub(1)?).ok()?;
        let (width, height) = *ASPECTS.get(place)?;
        Some(Aspect { width, height })
    }
}

/// What the header of YUV4MPEG2 says: the size of what is shown in luma samples, so many frames in so many seconds, and the shape of a sample, where it is
/// known.
#[derive(Clone, Copy, PartialEq, Eq)]
pub struct Head {
    pub width: usize,
    pub height: usize,
    pub frames: u64,
    pub seconds: u64,
    pub aspect: Option<Aspect>,
}

impl Head {
    /// Whether another header names the same size.
    pub(crate) fn has_size_of(self, other: Head) -> bool
        ensures yes { result ≡ true → (other.width ≡ self.width) × (other.height ≡ self.height) }
        ensures no { result ≡ false → other.width ≡ self.width → other.height ≡ self.height → ⊥ }
    {
        self.width == other.width && self.height == other.height
    }
}
