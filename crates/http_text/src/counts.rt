//! The counts of a stream.
ghost use Rattle.std.specs.Prelude.{◌≡◌};
ghost use Rattle.http_text.specs.Counts.{count_up};

/// Counts one more, up to the greatest `u64`.
pub(crate) fn count(number: &mut u64)
    ensures { number.new ≡ count_up number.old 1 }
{
    *number = number.saturating_add(1);
}
