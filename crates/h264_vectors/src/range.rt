//! The range of vectors (A.3.1).
#![tactic(auto)]

ghost use Rattle.std.specs.Prelude.{◌≡◌, ◌≤◌, ◌+ℤ◌};
ghost use Rattle.h264_vectors.specs.Derived as derived;
ghost use Rattle.h264_vectors.specs.Agrees.{if_fits};

use h264_near::Vector;

/// A component of a vector of its prediction and its difference, if it lies from -limit to limit - 1.
#[tactic(auto, unfolding(crate::specs::Derived::component_fits))]
#[inline]
fn component(limit: u32, predicted: i16, difference: i32) -> Option<i16>
    requires { limit ≤ 8192 }
    ensures { result ≡ if_fits (derived.component_fits limit (predicted +ℤ difference)) (predicted +ℤ difference) }
{
    let x = predicted as i64 + difference as i64;
    if x + (limit as i64) < 0 {
        return None;
    }
    if limit as i64 <= x {
        return None;
    }
    Some(x as i16)
}

/// Whether a component of a vector lies from -limit to limit - 1.
#[inline]
fn component_fits(limit: u32, component: i16) -> bool
    requires { limit ≤ 8192 }
    ensures { result ≡ derived.component_fits limit component }
{
    let x = component as i64;
    if x + (limit as i64) < 0 {
        return false;
    }
    if limit as i64 <= x {
        return false;
    }
    true
}

/// Whether a vector lies in its range.
#[inline]
pub fn vector_fits(limit: u32, vector: Vector) -> bool
    requires { limit ≤ 8192 }
    ensures { result ≡ derived.vector_fits limit vector }
{
    if !component_fits(8192, vector.x) {
        return false;
    }
    component_fits(limit, vector.y)
}

/// A vector of its prediction and its difference, if it lies in its range.
#[inline]
pub(crate) fn moved(limit: u32, predicted: Vector, across: i32, down: i32) -> Option<Vector>
    requires { limit ≤ 8192 }
    ensures { result ≡ if_fits (derived.vector_fits limit (derived.moved predicted across down)) (derived.moved predicted across down) }
{
    match (
        component(8192, predicted.x, across),
        component(limit, predicted.y, down),
    ) {
        (Some(x), Some(y)) => Some(Vector { x, y }),
        (Some(_), None) => None,
        (None, Some(_)) => None,
        (None, None) => None,
    }
}
