//! Which of two values is less.
//!
//! Its rows: `tests_numbers`, `src/means.rt`.

ghost use Rattle.std.specs.Prelude.{◌≡◌, ◌*ℤ◌, ◌^◌, ◌<◌, unsigned_abs};
ghost use Rattle.pmb_mean.specs.Numbers.{is_below};
ghost use Rattle.pmb_mean.specs.machine.History.{greatest_after, least_after, told};

use pmb_value::Quantity;

/// The least of the values so far and one more.
pub(crate) fn least_after(count: u64, least: Quantity, value: Quantity) -> Quantity
    ensures { result ≡ least_after count least value }
{
    if count == 0 || is_below(&value, &least) {
        value
    } else {
        least
    }
}

/// The greatest of the values so far and one more.
pub(crate) fn greatest_after(count: u64, greatest: Quantity, value: Quantity) -> Quantity
    ensures { result ≡ greatest_after count greatest value }
{
    if count == 0 || is_below(&greatest, &value) {
        value
    } else {
        greatest
    }
}

/// Whether a quantity is less than another.
fn is_below(one: &Quantity, other: &Quantity) -> bool
    ensures { result ≡ is_below one.now other.now }
{
    times(one.num(), other.den()) < times(other.num(), one.den())
}

/// A product.
fn times(a: i64, b: i64) -> i128
    requires a_fits { unsigned_abs a < 2 ^ 62 }
    requires b_fits { unsigned_abs b < 2 ^ 62 }
    ensures { result ≡ a *ℤ b }
{
    i128::from(a) * i128::from(b)
}

/// A quantity, where any came.
pub(crate) fn told(count: u64, quantity: Quantity) -> Option<Quantity>
    ensures { result ≡ told count quantity }
{
    if count == 0 { None } else { Some(quantity) }
}
