//! Numbers as decimals are spelled. This file knows no operator.

ghost use Rattle.std.specs.Prelude.{◌≡◌, ◌^◌, ◌<◌, pos};
ghost use Rattle.smt_ratios.specs.Known.{known_decimal, within};
ghost use Rattle.smt_ratios.specs.View.{known_rational};

use crate::number::{Number, lowest};

// The number of places from which on a decimal has no value here.
const PLACES: usize = 39;

/// The number of a decimal, from the numeral that its digits are without the point, and the count of those behind it.
///
/// `None` where the numeral is over 2^127 - 1, there are 39 places or more, or the denominator is over 2^120 - 1.
pub fn decimal(digits: u128, places: usize) -> Option<Number>
    ensures { known_rational result ≡ known_decimal digits places }
{
    if places >= PLACES {
        return None;
    }
    lowest(numeral(digits)?, power_of_ten(places as u32))
}

fn numeral(digits: u128) -> Option<i128>
    ensures { result ≡ within (pos digits) }
{
    i128::try_from(digits).ok()
}

fn power_of_ten(places: u32) -> i128
    requires { places < 39 }
    ensures { result ≡ pos (10 ^ places) }
{
    10_u128.pow(places) as i128
}
