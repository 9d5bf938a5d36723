//! Laws over the definitions that the contracts cite: each is the contract of a function that does
//! nothing.
//!
//! Its rows: `tests_numbers`, `src/means.rt`, where each law is called.

ghost use Rattle.std.specs.Prelude.{ℕ, List};
ghost use Rattle.pmb_mean.specs.Alike.{TellNumbersAlike};
ghost use Rattle.pmb_mean.specs.Laws.{GreatestIsGreatest, LeastIsLeast, MeanIsBetween, MeanIsMean, OneMeanIsValue};
ghost use Rattle.pmb_mean.specs.machine.History.{HistoryData, HistoryStandsAt};
ghost use Rattle.pmb_mean.specs.Numbers.{NumberData, kept};

/// The least value is that of one of them, and at most each of them.
pub fn least_is_least()
    ensures { (numbers : List NumberData) → LeastIsLeast numbers }
{}

/// The greatest value is that of one of them, and at least each of them.
pub fn greatest_is_greatest()
    ensures { (numbers : List NumberData) → GreatestIsGreatest numbers }
{}

/// The mean is the sum of the values, divided by how many there are: over each common denominator the
/// mean times the count is the sum of the numerators.
pub fn mean_is_mean()
    ensures { (numbers : List NumberData) → MeanIsMean numbers }
{}

/// The mean is at least the least value, and at most the greatest.
pub fn mean_is_between()
    ensures { (numbers : List NumberData) → MeanIsBetween numbers }
{}

/// The mean of one value has the text of that value.
pub fn one_mean_is_value()
    ensures { (digits : ℕ) (n : NumberData) → OneMeanIsValue digits n }
{}

/// A history stands at no two lists of values of which it would tell something else.
pub fn one_history()
    ensures { (history : HistoryData) (numbers others : List NumberData) → HistoryStandsAt history numbers
        → HistoryStandsAt history others → TellNumbersAlike (kept numbers) (kept others) }
{}
