//! What follows from the numbers of a comparison. Nothing here runs.
#![tactic(auto)]

ghost use Rattle.std.specs.Prelude.{◌≡◌, List, map, None, Some};
ghost use Rattle.std.specs.List.{All};
ghost use Rattle.h264_compare.specs.declared.numbers.Difference.{Difference};
ghost use Rattle.h264_compare.specs.declared.numbers.Numbers.{Numbers};
ghost use Rattle.h264_compare.specs.Numbers.{AreNumbersOf, Compared};
ghost use Rattle.h264_compare.specs.Compared.{IsWhole};

/// Where frames were given whole, no difference was found exactly where each was given as it was made.
pub fn equal_is_all_equal()
    ensures equal { (n : Numbers) (frames : List Compared) → AreNumbersOf n frames → All IsWhole frames → n.first ≡ None →
        map (λ f. f.given) frames ≡ map (λ f. f.made) frames }
    ensures differs { (n : Numbers) (frames : List Compared) → AreNumbersOf n frames → map (λ f. f.given) frames ≡ map (λ f. f.made) frames →
        n.first ≡ None }
{}
