//! Tables of cases. What is asked of a case is a plain function, which is cheaper to prove than one that asserts.
#![tactic(auto)]

use std::process::Abort;

/// Stops at the first case that does not hold, and tells its place in the table.
pub fn each<T, F: Fn(&T) -> bool>(rt: &impl Abort, cases: &[T], holds: F)
    requires { F.IsAlwaysCallable holds }
{
    for (i, case) in cases.iter().enumerate() {
        assert!(rt; holds(case), "case {i}");
    }
}
