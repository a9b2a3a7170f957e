//! The names of profiles and levels.
#![tactic(auto)]

ghost use Rattle.std.specs.Prelude.{◌≡◌};
ghost use Rattle.h264_pages.specs.Pages.{Adds};
ghost use Rattle.h264_pages.specs.Profiles.{profile_name, level_name};

use crate::pages::page::Page;
use crate::survey::Sequence;

/// The name of a profile, by profile_idc and constraint_set1_flag (A.2).
#[tactic(auto, unfolding(crate::specs::Profiles::profile_name))]
pub fn profile_name(profile_idc: u64, constraint_set1: bool) -> &'static str
    ensures { result.now ≡ profile_name profile_idc constraint_set1 }
{
    match profile_idc {
        66 => {
            if constraint_set1 {
                "Constrained Baseline"
            } else {
                "Baseline"
            }
        }
        77 => "Main",
        88 => "Extended",
        100 => "High",
        110 => "High 10",
        122 => "High 4:2:2",
        244 => "High 4:4:4 Predictive",
        44 => "CAVLC 4:4:4 Intra",
        83 => "Scalable Baseline",
        86 => "Scalable High",
        118 => "Multiview High",
        128 => "Stereo High",
        138 => "Multiview Depth High",
        _ => "unknown",
    }
}

/// The name of a set's profile.
pub fn profile_of(set: &Sequence) -> &'static str
    ensures { result.now ≡ profile_name set.now.profile_idc set.now.constraint_set1 }
{
    profile_name(set.profile_idc, set.constraint_set1)
}

/// level_idc 11, which is level 1b with constraint_set3_flag in these profiles (7.4.2.1.1).
const LEVEL_11: u64 = 11;

/// profile_idc of the Baseline, the Main and the Extended profile.
const FLAGGED: [u64; 3] = [66, 77, 88];

/// level_idc 9, which is level 1b.
const LEVEL_1B: u64 = 9;

/// Adds the name of a level of a profile, such as 3.1, by level_idc and constraint_set3_flag (A.3).
pub fn put_level_of(page: &mut Page, profile_idc: u64, level_idc: u64, constraint_set3: bool)
    ensures { Adds page.old page.new (level_name profile_idc level_idc constraint_set3) }
{
    let is_flagged = constraint_set3 && FLAGGED.contains(&profile_idc);
    if level_idc == LEVEL_1B || (level_idc == LEVEL_11 && is_flagged) {
        page.put("1b");
        return;
    }
    page.number(level_idc / 10);
    if level_idc % 10 != 0 {
        page.put(".");
        page.number(level_idc % 10);
    }
}

/// Adds the name of a set's level.
pub fn put_level(page: &mut Page, set: &Sequence)
    ensures { Adds page.old page.new (level_name set.now.profile_idc set.now.level_idc set.now.constraint_set3) }
{
    put_level_of(page, set.profile_idc, set.level_idc, set.constraint_set3);
}
