//! What is kept of values, one after the other.
//!
//! Its rows: `tests_numbers`, `src/means.rt`.

use crate::division::append_fraction;
use crate::number::Number;
use crate::order::{greatest_after, least_after, told};
use crate::sum::Sum;
use arrayvec::ArrayVec;
use pmb_decimal::Digits;
use pmb_value::{Format, Linear11, Quantity};
use std::marker::Model;

/// The most values that are kept.
const MOST: u64 = u64::MAX;

/// How often values came, the least, the greatest and the last of them, and the sum from which their
/// mean follows.
#[derive(Clone, Copy, Debug, PartialEq, Eq)]
pub struct NumberHistory {
    count: u64,
    /// How many of them were read by an assumed VOUT_MODE.
    assumed: u64,
    total: Sum,
    least: Quantity,
    greatest: Quantity,
    last: Quantity,
}

impl Model for NumberHistory {
    ghost use Rattle.pmb_mean.specs.machine.History.{HistoryData, IsHistory};

    ghost Value = { HistoryData };

    ghost view = { λ h. record { count = h.count; assumed = h.assumed; total = h.total; least = h.least; greatest = h.greatest; last = h.last } };

    ghost invariant = { λ h. IsHistory (record { count = h.count; assumed = h.assumed; total = h.total; least = h.least; greatest = h.greatest; last = h.last }) };

    ghost inverse = { λ h. record { count = h.count; assumed = h.assumed; total = h.total; least = h.least; greatest = h.greatest; last = h.last } };
}

impl NumberHistory {
    ghost use Rattle.std.specs.Prelude.{◌≡◌, ◌+◌, ◌-◌, ◌^◌, ◌<◌, ◌≤◌, [], ◌∷◌, ◌++◌, List, IsSome, is_some, length};
    ghost use Rattle.pmb_json_text.specs.Json.{IsNumber};
    ghost use Rattle.pmb_mean.specs.MeanText.{mean_text, some_text};
    ghost use Rattle.pmb_mean.specs.Numbers.{NumberData, count_assumed, greatest, kept, last_value, least, mean};
    ghost use Rattle.pmb_mean.specs.machine.History.{HistoryStandsAt, IsHistory, after, mean_of, told};

    /// No value has come.
    pub fn new() -> NumberHistory
        ensures { HistoryStandsAt result [] }
    {
        let none = Linear11.decode(0);
        NumberHistory {
            count: 0,
            assumed: 0,
            total: Sum::Empty,
            least: none,
            greatest: none,
            last: none,
        }
    }

    /// Takes a value. After 2^64 - 1 values it takes no more.
    pub fn see(&mut self, number: &Number)
        ensures { (numbers : List NumberData) → HistoryStandsAt self.old numbers → HistoryStandsAt self.new (numbers ++ number.now ∷ []) }
    {
        if self.count < MOST {
            *self = self.after(number);
        }
    }

    /// With a value more.
    fn after(&self, number: &Number) -> NumberHistory
        requires { self.now.count < 2 ^ 64 - 1 }
        ensures { result ≡ after self.now number.now }
    {
        let value = number.value();
        NumberHistory {
            count: self.count + 1,
            assumed: self.assumed + u64::from(number.is_assumed()),
            total: self.total.with(number),
            least: least_after(self.count, self.least, value),
            greatest: greatest_after(self.count, self.greatest, value),
            last: value,
        }
    }

    /// How many values came.
    pub fn count(&self) -> u64
        ensures { (numbers : List NumberData) → HistoryStandsAt self.now numbers → result ≡ length (kept numbers) }
    {
        self.count
    }

    /// How many of them were read by an assumed VOUT_MODE.
    pub fn assumed(&self) -> u64
        ensures { (numbers : List NumberData) → HistoryStandsAt self.now numbers → result ≡ count_assumed (kept numbers) }
    {
        self.assumed
    }

    /// The least value, where any came.
    pub fn least(&self) -> Option<Quantity>
        ensures { (numbers : List NumberData) → HistoryStandsAt self.now numbers → result ≡ least (kept numbers) }
    {
        told(self.count, self.least)
    }

    /// The greatest value, where any came.
    pub fn greatest(&self) -> Option<Quantity>
        ensures { (numbers : List NumberData) → HistoryStandsAt self.now numbers → result ≡ greatest (kept numbers) }
    {
        told(self.count, self.greatest)
    }

    /// The last value, where any came.
    pub fn last(&self) -> Option<Quantity>
        ensures { (numbers : List NumberData) → HistoryStandsAt self.now numbers → result ≡ last_value (kept numbers) }
    {
        told(self.count, self.last)
    }

    /// Whether there is a mean: any value came, and all over one denominator.
    pub fn has_mean(&self) -> bool
        ensures { (numbers : List NumberData) → HistoryStandsAt self.now numbers → result ≡ is_some (mean (kept numbers)) }
    {
        match self.total {
            Sum::Empty => false,
            Sum::Of(_, _) => true,
            Sum::Mixed => false,
        }
    }

    /// Appends the decimal that is nearest to the mean, with at most that many digits after the point,
    /// as `append_decimal` of `pmb_decimal` writes one, which is a number of JSON; nothing where there
    /// is no mean.
    pub fn append_mean<const N: usize>(&self, digits: Digits, out: &mut ArrayVec<u8, N>)
        requires room { length out.old.items + 33 ≤ N }
        ensures text { (numbers : List NumberData) → HistoryStandsAt self.now numbers
            → out.new.items ≡ out.old.items ++ mean_text digits (kept numbers) }
        ensures short { length out.new.items ≤ length out.old.items + 33 }
        ensures number { (numbers : List NumberData) → HistoryStandsAt self.now numbers
            → IsSome (mean (kept numbers)) → IsNumber (mean_text digits (kept numbers)) }
    {
        self.append_mean_of(digits, out);
    }

    /// The same, by what is held.
    fn append_mean_of<const N: usize>(&self, digits: Digits, out: &mut ArrayVec<u8, N>)
        requires room { length out.old.items + 33 ≤ N }
        ensures text { out.new.items ≡ out.old.items ++ some_text digits (mean_of self.now.total self.now.count) }
        ensures short { length out.new.items ≤ length out.old.items + 33 }
        ensures number { IsSome (mean_of self.now.total self.now.count) → IsNumber (some_text digits (mean_of self.now.total self.now.count)) }
    {
        match self.total {
            Sum::Empty => {}
            Sum::Of(over, total) => {
                let denominator = u128::from(over.denominator()) * u128::from(self.count);
                append_fraction(total, denominator, digits, out);
            }
            Sum::Mixed => {}
        }
    }
}

impl Default for NumberHistory {
    ghost use Rattle.std.specs.Prelude.{[]};
    ghost use Rattle.pmb_mean.specs.machine.History.{HistoryStandsAt};

    /// No value has come.
    fn default() -> NumberHistory
        ensures { HistoryStandsAt result [] }
    {
        NumberHistory::new()
    }
}
