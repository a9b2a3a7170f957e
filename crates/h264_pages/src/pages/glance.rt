//! What the first parameter sets of a byte stream say of it, whatever its profile is: for a reader, and for no verdict.
#![tactic(auto)]

ghost use Rattle.std.specs.Prelude.{◌≡◌, false};
ghost use Rattle.h264_pages.specs.Pages.{Adds};
ghost use Rattle.h264_pages.specs.Reasons.{size_text, size_after, profile_declared, profile_text, level_after, coding_text, declared_text};
ghost use Rattle.h264_pages.specs.Reasons.{is_known, is_main, may_suit_main};
ghost use Rattle.h264_pages.specs.Starts.{sequence_in, IsOfSetRead};

use crate::pages::container::Start;
use crate::pages::info::{shown_height, shown_width};
use crate::pages::page::Page;
use crate::pages::profile::{profile_name, put_level_of};
use crate::survey::{ParameterSet, Sequence, Survey};
use h264_base::ElementName;

/// What is shown of a frame, in luma samples.
#[derive(Clone, Copy)]
pub struct Size {
    pub width: u64,
    pub height: u64,
}

impl Size {
    /// Adds the width and the height.
    pub fn put(self, page: &mut Page)
        ensures { Adds page.old page.new (size_text self) }
    {
        page.number(self.width);
        page.put("x");
        page.number(self.height);
    }
}

/// What a stream says of itself in its first parameter sets.
#[derive(Clone, Copy)]
pub struct Declared {
    pub profile_idc: u64,
    pub constraint_set1: bool,
    pub constraint_set3: bool,
    /// level_idc, where the set could be read so far.
    pub level_idc: Option<u64>,
    /// The size, where the set could be read so far.
    pub size: Option<Size>,
    /// Whether all pictures are frames, where the set could be read so far.
    pub frame_mbs_only: Option<bool>,
    /// Whether the first picture parameter set asks for CABAC, where it could be read.
    pub cabac: Option<bool>,
}

/// The format of the pictures that a sequence parameter set says.
#[derive(Clone, Copy)]
struct Format {
    size: Size,
    frame_mbs_only: bool,
}

/// profile_idc of the Main profile (A.2.2).
const MAIN: u64 = 77;

/// The values of profile_idc with which a set says its chroma format (7.3.2.1.1).
const WITH_CHROMA_FORMAT: [u64; 13] = [
    100, 110, 122, 244, 44, 83, 86, 118, 128, 138, 139, 134, 135,
];

/// constraint_set1_flag and constraint_set3_flag in the byte of the flags (7.3.2.1.1).
const CONSTRAINT_SET1: u64 = 0x40;

const CONSTRAINT_SET3: u64 = 0x10;

/// The longest run of zeros in a code word of 32 bits (9.1).
const MOST_ZEROS: u32 = 32;

/// Samples in a row of a macroblock.
const SIDE: u64 = 16;

/// How many values a scale has: one is changed by a delta_scale modulo this (7.3.2.1.1.1).
const SCALES: i64 = 256;

/// The scale before the first entry of a scaling list.
const FIRST_SCALE: i64 = 8;

/// chroma_format_idc of 4:4:4 (table 6-1).
const CHROMA_444: u64 = 3;

/// How many scaling lists a set may have, and how many in 4:4:4 (7.3.2.1.1).
const SCALING_LISTS: usize = 8;

const SCALING_LISTS_444: usize = 12;

/// How many of them are of blocks of 4x4 samples. They come first.
const SMALL_LISTS: usize = 6;

/// How many entries a list has, of blocks of 4x4 and of 8x8 samples.
const SMALL_ENTRIES: usize = 16;

const LARGE_ENTRIES: usize = 64;

/// The bits of an RBSP.
#[derive(Clone, Copy)]
struct RbspBits<'a> {
    rbsp: &'a [u8],
    /// The place of the next byte.
    place: usize,
    /// The byte that is read, its next bit first, and how many of its bits are left.
    byte: u8,
    left: u8,
}

impl<'a> RbspBits<'a> {
    /// All its bits.
    fn new(rbsp: &'a [u8]) -> RbspBits<'a> {
        RbspBits {
            rbsp,
            place: 0,
            byte: 0,
            left: 0,
        }
    }

    /// Takes up the next byte. None: it is not known.
    fn take_up(&mut self) -> Option<()> {
        self.byte = self.rbsp.get(self.place).copied()?;
        self.place = self.place.saturating_add(1);
        self.left = 8;
        Some(())
    }

    /// The next bit.
    fn flag(&mut self) -> Option<bool> {
        if self.left == 0 {
            self.take_up()?;
        }
        let is_set = self.byte >= 128;
        self.byte = self.byte.wrapping_mul(2);
        self.left = self.left.saturating_sub(1);
        Some(is_set)
    }

    /// So many bits after these, as a number.
    fn number_after(&mut self, first: u64, count: u32) -> Option<u64> {
        let mut value = first;
        for _ in 0..count {
            value = value
                .saturating_mul(2)
                .saturating_add(u64::from(self.flag()?));
        }
        Some(value)
    }

    /// A ue(v) or the number of a se(v) (9.1).
    fn ue(&mut self) -> Option<u64> {
        for zeros in 0..MOST_ZEROS {
            if self.flag()? {
                return Some(self.number_after(1, zeros)?.saturating_sub(1));
            }
        }
        None
    }

    /// A se(v) (9.1.1).
    fn se(&mut self) -> Option<i64> {
        let code_num = i64::try_from(self.ue()?).ok()?;
        let size = code_num / 2;
        Some(if code_num % 2 == 0 { -size } else { size + 1 })
    }

    /// Passes over the elements of the picture order count (7.3.2.1.1).
    fn pass_counts(&mut self) -> Option<()> {
        let kind = self.ue()?;
        if kind == 0 {
            self.ue()?;
        }
        if kind == 1 {
            self.flag()?;
            self.ue()?;
            self.ue()?;
            let cycle = u8::try_from(self.ue()?).ok()?;
            for _ in 0..cycle {
                self.ue()?;
            }
        }
        Some(())
    }

    /// Passes over a scaling list (7.3.2.1.1.1). After a scale of 0 no entry of it has a delta_scale.
    fn pass_scaling_list(&mut self, entries: usize) -> Option<()> {
        let mut scale = FIRST_SCALE;
        for _ in 0..entries {
            scale = scale.saturating_add(self.se()?).rem_euclid(SCALES);
            if scale == 0 {
                return Some(());
            }
        }
        Some(())
    }

    /// Passes over the scaling lists of a set with this chroma_format_idc (7.3.2.1.1).
    fn pass_scaling_lists(&mut self, chroma_format: u64) -> Option<()> {
        let lists = if chroma_format == CHROMA_444 {
            SCALING_LISTS_444
        } else {
            SCALING_LISTS
        };
        for list in 0..lists {
            let entries = if list < SMALL_LISTS {
                SMALL_ENTRIES
            } else {
                LARGE_ENTRIES
            };
            if self.flag()? {
                self.pass_scaling_list(entries)?;
            }
        }
        Some(())
    }

    /// chroma_format_idc, 1 where the set does not say it. The scaling lists of the set are passed over.
    fn chroma_format(&mut self, profile_idc: u64) -> Option<u64> {
        if !WITH_CHROMA_FORMAT.contains(&profile_idc) {
            return Some(1);
        }
        let chroma_format = self.ue()?;
        if chroma_format == CHROMA_444 {
            self.flag()?;
        }
        self.ue()?;
        self.ue()?;
        self.flag()?;
        if self.flag()? {
            self.pass_scaling_lists(chroma_format)?;
        }
        Some(chroma_format)
    }

    /// What two offsets cut off a side, in samples.
    fn cut(&mut self, unit: u64) -> Option<u64> {
        let first = self.ue()?;
        let second = self.ue()?;
        Some(first.saturating_add(second).saturating_mul(unit))
    }

    /// The format, from after level_idc on (7.3.2.1.1).
    fn format(&mut self, profile_idc: u64) -> Option<Format> {
        self.ue()?;
        let chroma_format = self.chroma_format(profile_idc)?;
        self.ue()?;
        self.pass_counts()?;
        self.ue()?;
        self.flag()?;
        let columns = self.ue()?.saturating_add(1);
        let rows = self.ue()?.saturating_add(1);
        let frame_mbs_only = self.flag()?;
        if !frame_mbs_only {
            self.flag()?;
        }
        self.flag()?;
        let fields: u64 = if frame_mbs_only { 1 } else { 2 };
        let across: u64 = if chroma_format == 1 || chroma_format == 2 {
            2
        } else {
            1
        };
        let down: u64 = if chroma_format == 1 { 2 } else { 1 };
        let is_cropped = self.flag()?;
        let cut_across = if is_cropped { self.cut(across)? } else { 0 };
        let cut_down = if is_cropped {
            self.cut(down.saturating_mul(fields))?
        } else {
            0
        };
        Some(Format {
            size: Size {
                width: columns.saturating_mul(SIDE).saturating_sub(cut_across),
                height: rows
                    .saturating_mul(SIDE)
                    .saturating_mul(fields)
                    .saturating_sub(cut_down),
            },
            frame_mbs_only,
        })
    }
}

/// entropy_coding_mode_flag of the first picture parameter set (7.3.2.2).
fn cabac_of(start: &Start) -> Option<bool> {
    let mut bits = RbspBits::new(start.sets().picture()?);
    bits.ue()?;
    bits.ue()?;
    bits.flag()
}

/// What was read of the sequence parameter set that was read last, where no unit came after it: one that broke a rule, or the input's last unit.
fn last_set(survey: &Survey) -> Option<Sequence>
    ensures { result ≡ sequence_in survey.now.sets.read }
{
    match survey.sets.read {
        Some(ParameterSet::Sequence(set)) => Some(set),
        _ => None,
    }
}

/// The size of a set, where it was read. Where the height counts rows of fields, frame_mbs_only_flag broke a rule and was read last.
fn size_read(survey: &Survey, set: &Sequence) -> Option<Size> {
    let last = survey.last_element()?;
    let has_fields = last.name == ElementName::FrameMbsOnlyFlag && last.value == 0;
    if set.height == 0 || has_fields {
        return None;
    }
    Some(Size {
        width: shown_width(set),
        height: shown_height(set),
    })
}

/// Adds a size after a text, where it is known.
pub(crate) fn put_size_after(page: &mut Page, before: &str, size: Option<Size>)
    ensures { Adds page.old page.new (size_after before.now size) }
{
    if let Some(size) = size {
        page.put(before);
        size.put(page);
    }
}

/// Adds the entropy coding after a comma, where it is known.
fn put_coding(page: &mut Page, cabac: Option<bool>)
    ensures { Adds page.old page.new (coding_text cabac) }
{
    match cabac {
        Some(true) => page.put(", CABAC"),
        Some(false) => page.put(", CAVLC"),
        None => {}
    }
}

impl Declared {
    /// What was read of a set.
    fn of_read(survey: &Survey, set: &Sequence) -> Declared
        ensures { result.profile_idc ≡ set.now.profile_idc }
    {
        Declared {
            profile_idc: set.profile_idc,
            constraint_set1: set.constraint_set1,
            constraint_set3: set.constraint_set3,
            level_idc: if set.level_idc == 0 {
                None
            } else {
                Some(set.level_idc)
            },
            size: size_read(survey, set),
            frame_mbs_only: None,
            cabac: None,
        }
    }

    /// What the sequence parameter set says that was read last, where no unit came after it. The first one of the input is read anew,
    /// whatever its profile is.
    pub fn of_last(survey: &Survey, start: &Start) -> Option<Declared>
        ensures { IsOfSetRead result survey.now }
    {
        let set = last_set(survey)?;
        match Declared::of(start) {
            Some(declared)
                if survey.sets.sequences.is_empty() && declared.profile_idc == set.profile_idc => {
                Some(declared)
            }
            _ => Some(Declared::of_read(survey, &set)),
        }
    }

    /// What the first sequence parameter set and the first picture parameter set say. None: no sequence parameter set came.
    fn of(start: &Start) -> Option<Declared> {
        let mut bits = RbspBits::new(start.sets().sequence()?);
        let profile_idc = bits.number_after(0, 8)?;
        let flags = bits.number_after(0, 8)?;
        let level_idc = bits.number_after(0, 8);
        let format = bits.format(profile_idc);
        Some(Declared {
            profile_idc,
            constraint_set1: flags & CONSTRAINT_SET1 != 0,
            constraint_set3: flags & CONSTRAINT_SET3 != 0,
            level_idc,
            size: format.map(|format| format.size),
            frame_mbs_only: format.map(|format| format.frame_mbs_only),
            cabac: cabac_of(start),
        })
    }

    /// The name of the profile.
    pub fn profile(&self) -> &'static str
        ensures { result.now ≡ profile_declared self.now }
    {
        profile_name(self.profile_idc, self.constraint_set1)
    }

    /// Whether the profile is Main.
    pub fn is_main(&self) -> bool
        ensures { result ≡ is_main self.now }
    {
        self.profile_idc == MAIN
    }

    /// Whether the set says that there may be fields.
    pub fn has_fields(&self) -> bool
        ensures { result ≡ is_known self.now.frame_mbs_only false }
    {
        matches!(self.frame_mbs_only, Some(false))
    }

    /// Whether the target main-ip may judge it: Main with CAVLC and without fields.
    pub fn may_suit_main(&self) -> bool
        ensures { result ≡ may_suit_main self.now }
    {
        self.is_main()
            && matches!(self.frame_mbs_only, Some(true))
            && matches!(self.cabac, Some(false))
    }

    /// Adds the level after a text, where it is known.
    pub fn put_level(&self, page: &mut Page, before: &str)
        ensures { Adds page.old page.new (level_after before.now self.now self.now.level_idc) }
    {
        if let Some(level_idc) = self.level_idc {
            page.put(before);
            put_level_of(page, self.profile_idc, level_idc, self.constraint_set3);
        }
    }

    /// Adds the profile, and level, size and entropy coding where they are known, with commas between them.
    pub fn put(&self, page: &mut Page)
        ensures { Adds page.old page.new (declared_text self.now) }
    {
        self.put_profile(page);
        self.put_level(page, ", level ");
        put_size_after(page, ", ", self.size);
        put_coding(page, self.cabac);
    }

    /// Adds the profile, by its number where it has no name here.
    fn put_profile(&self, page: &mut Page)
        ensures { Adds page.old page.new (profile_text self.now) }
    {
        if self.profile() == "unknown" {
            page.put("profile_idc ");
            page.number(self.profile_idc);
        } else {
            page.put(self.profile());
            page.put(" profile");
        }
    }
}
