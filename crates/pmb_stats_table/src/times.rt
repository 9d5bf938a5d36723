//! Times in columns.
//!
//! Its rows: `tests/rows/stats.txt`.

ghost use Rattle.std.specs.Prelude.{◌≡◌, ◌≤◌, length, option_map};
ghost use Rattle.std.specs.Option.{ForSome};
ghost use Rattle.pmb_log_data.specs.Text.{or_nothing};

/// A time; nothing where there is none.
pub(crate) fn or_nothing(time: Option<&[u8]>) -> &[u8]
    requires { ForSome time (λ time. length time.now ≤ 40) }
    ensures text { result.now ≡ or_nothing (option_map (λ time. time.now) time.entry) }
    ensures short { length result.now ≤ 40 }
{
    match time {
        Some(time) => time,
        None => b"",
    }
}
