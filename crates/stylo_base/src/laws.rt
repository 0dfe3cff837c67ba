//! What is true of the definitions that the contracts cite, as the contracts of functions that do
//! nothing.

ghost use Rattle.std.specs.Prelude.{◌≡◌, ◌<◌, ◌≤◌, ℕ, ℤ, ◌-ℤ◌, unsigned_abs};
ghost use Rattle.base_model.specs.Thousandths.{IsInRange, IsNearest, clamped, rounded};

/// `rounded` is the nearest whole number, halves away from 0, and no other number is.
pub fn rounds_to_the_nearest()
    ensures nearest { (z : ℤ) (d : ℕ) → 0 < d → IsNearest z d (rounded z d) }
    ensures alone { (z : ℤ) (d : ℕ) (r : ℤ) → 0 < d → IsNearest z d r → r ≡ rounded z d }
{}

/// `clamped` is the number of the range that is nearest, and leaves the range's numbers as they are.
pub fn clamps_to_the_nearest()
    ensures range { (z : ℤ) → IsInRange (clamped z) }
    ensures nearest { (z w : ℤ) → IsInRange w → unsigned_abs (z -ℤ clamped z) ≤ unsigned_abs (z -ℤ w) }
    ensures same { (z : ℤ) → IsInRange z → clamped z ≡ z }
{}
