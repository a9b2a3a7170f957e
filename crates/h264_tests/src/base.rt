//! What no contract says: the texts that `thiserror` derives, and each call once.
#![tactic(auto)]

use h264_base::{ElementName, Feature, Rule, Stop};
use std::fmt::Write;
use std::test::Fail;

#[test]
fn names_and_clauses(rt: HostRuntime) {
    assert!(rt;
        Rule::MarkCommand.label() == "MarkCommand" && Rule::MarkCommand.clause() == "8.2.5"
    );
    assert!(rt; ElementName::PrevIntra4x4PredModeFlag.text() == "prev_intra4x4_pred_mode_flag");
    assert!(rt; Feature::Level6.text() == "Level6");
}

#[test]
fn a_stop_displays_itself(rt: HostRuntime) -> Result<(), Fail> {
    let stop = Stop::No {
        bit: 7,
        rule: Rule::Range,
    };
    let mut text = String::new(rt.alloc());
    write!(text, "{stop}")?;
    assert!(rt; text.as_str() == "bit 7: the rule Range is broken");
    Ok(())
}
