ghost use Rattle.std.specs.Prelude.{◌≡◌};
ghost use Rattle.pmb_io.specs.Count.{raised};

/// A count after some more; it stays at the greatest `u64`.
pub(crate) fn raised(count: u64, more: u64) -> u64
    ensures { result ≡ raised count more }
{
    count.saturating_add(more)
}
