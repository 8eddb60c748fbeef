ghost use Rattle.std.specs.Prelude.{◌≡◌};
ghost use Rattle.media.specs.Media.{within_limits as limits_of};

// Whether so many sectors of this length are within the limits of a store.
pub(crate) fn within_limits(count: u64, length: usize) -> bool
    ensures { result ≡ limits_of count length }
{
    count <= 65536 && (64..=4096).contains(&length) && length % 16 == 0
}
