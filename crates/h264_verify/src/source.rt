//! Where the bytes of a stream come from.
#![tactic(auto)]

ghost use Rattle.std.specs.Prelude.{ℕ, ◌≡◌, ◌==◌, ◌+◌, ◌-◌, ◌<◌, ◌≤◌, ◌^◌, Bool, List, [], ◌++◌, take, drop, length};
ghost use Rattle.std.specs.Prelude.{Option, Some, OnOk, OnErr, IfOk, IfSome, IfNone};
ghost use Rattle.h264_base.specs.Call.{HasRoom, IsQuiet};

use h264_base::Failed;

/// Gives the bytes of a stream, some at a time.
pub trait Source {
    /// The bytes that are left, where they are known.
    ghost left: { Self → Option (List ℕ) };

    /// Whether it was read so often.
    ghost was_read: { Self → ℕ → Type 0 };

    /// How many reads failed.
    ghost failures: { Self → ℕ };

    /// Whether these are the bytes that it gave so far, and whether it then said its end. Any, where that is not noted.
    ghost gave: { Self → List ℕ → Bool → Type 0 } = { λ _ _ _. Unit {0} };

    /// Puts the next bytes at the piece's front, and answers how many: 0 at the end.
    /// None is an interrupted read, which is no failure and took no byte.
    fn read(&mut self, piece: &mut [u8]) -> Result<Option<usize>, Failed>
        requires room { 0 < length piece.old }
        requires count { HasRoom failures self.old }
        ensures again { (n : ℕ) → was_read self.old n → was_read self.new (n + 1) }
        ensures fits { IfOk result (λ o. IfSome o (λ n. n ≤ length piece.old)) }
        ensures bytes { IfOk result (λ o. IfSome o (λ n. (bytes : List ℕ) → left self.old ≡ Some bytes → (bytes ≡ take n piece.new ++ drop n bytes)
            × (left self.new ≡ Some (drop n bytes)))) }
        ensures end { IfOk result (λ o. IfSome o (λ n. (bytes : List ℕ) → left self.old ≡ Some bytes → n ≡ 0 → bytes ≡ [])) }
        ensures interrupted { IfOk result (λ o. IfNone o ((bytes : List ℕ) → left self.old ≡ Some bytes → left self.new ≡ Some bytes)) }
        ensures gave { IfOk result (λ o. IfSome o (λ n. (before : List ℕ) (ended : Bool) → gave self.old before ended →
            gave self.new (before ++ take n piece.new) (n == 0))) }
        ensures gave_none { IfOk result (λ o. IfNone o ((before : List ℕ) (ended : Bool) → gave self.old before ended → gave self.new before ended)) }
        ensures gave_failed { OnErr result ((before : List ℕ) (ended : Bool) → gave self.old before ended → gave self.new before ended) }
        ensures kept { OnOk result (IsQuiet failures self.old self.new) }
        ensures failed { OnErr result (failures self.new ≡ failures self.old + 1) };
}
