ghost use Rattle.std.specs.Prelude.{◌≡◌};
ghost use Rattle.media.specs.Spared.{listed as ListedIn, position};

// Where the sector stands in the list.
pub(crate) fn find(bad: &[u64], n: u64) -> Option<usize>
    ensures { result ≡ position bad.now n }
{
    bad.iter().position(|x| *x == n)
}

// Whether each sector is below the count and listed once.
pub(crate) fn listed(mut bad: &[u64], count: u64) -> bool
    ensures { result ≡ ListedIn count bad.entry.now }
{
    while let [sector, rest @ ..] = bad {
        if *sector >= count || find(rest, *sector).is_some() {
            return false;
        }
        bad = rest;
    }
    true
}
