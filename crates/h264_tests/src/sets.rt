//! What no clause says: that each call succeeds.
#![tactic(auto)]

use crate::parameter_sets::{pps, sps};
use h264_base::{Rule, Stop};
use h264_sets::Sets;
use h264_sps::count_type::CountType;
use std::test::Fail;

/// The sets are activated, kept while they do not change, and replaced by an IDR picture alone.
#[test]
fn activates(rt: HostRuntime) -> Result<(), Fail> {
    let mut sets = Sets::new(rt.alloc())?;
    let missing = Err(Stop::No {
        bit: 9,
        rule: Rule::NoSet,
    });
    let changed = Err(Stop::No {
        bit: 9,
        rule: Rule::SetChanged,
    });
    sets.put_pps(pps(200, 3));
    assert!(rt; sets.activate(200, 9, true) == missing);
    sets.put_sps(sps(3, 1, CountType::DecodingOrder));
    assert!(rt; sets.activate(200, 9, false) == changed);
    assert!(rt; sets.active().is_none());
    assert!(rt; sets.activate(200, 9, true) == Ok(()));
    sets.put_sps(sps(3, 1, CountType::DecodingOrder));
    assert!(rt; sets.activate(200, 9, false) == Ok(()));
    sets.put_sps(sps(3, 2, CountType::DecodingOrder));
    assert!(rt; sets.activate(200, 9, false) == changed);
    assert!(rt; sets.active().map_or(0, |pair| pair.sps.max_num_ref_frames) == 1);
    assert!(rt; sets.activate(200, 9, true) == Ok(()));
    assert!(rt; sets.active().map_or(0, |pair| pair.sps.max_num_ref_frames) == 2);
    assert!(rt; sets.activate(1000, 9, true) == missing);
    Ok(())
}
