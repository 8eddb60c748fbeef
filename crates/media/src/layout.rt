ghost use Rattle.std.specs.Prelude.{◌≡◌, ℕ, ◌+◌, ◌*◌, ◌<◌, ◌≤◌, ◌==◌, Bool, true, cond, List, length, Option, Some};
ghost use borrow.Rule.Slice.PartMut.{put_mid};
ghost use Rattle.media.specs.Media.{place as place_of};

// Where the sectors of a medium lie: each in a place of its own, and one that has none has failed.
pub(crate) trait Layout {
    // Whether its figures keep the rules. A member and no ghost field of `Spares`: with one the checker ends at
    // `SparedMedium::new` with "a bug in rattle and not in your code".
    ghost keeps: { Self → Bool };

    ghost sectors: { Self → ℕ };

    ghost places: { Self → ℕ };

    // The place of a sector.
    ghost lies: { Self → ℕ → Option ℕ };

    // The bytes of a sector, by those of the memory and by how many each sector has.
    ghost bytes: { Self → List ℕ → ℕ → ℕ → List ℕ };

    fn count(&self) -> u64
        ensures { result ≡ sectors self.now };

    fn place(&self, n: u64) -> Option<usize>
        requires { keeps self.now ≡ true }
        ensures { result ≡ lies self.now n };

    ghost within: { (s : Self) (n p : ℕ) → n < sectors s → lies s n ≡ Some p → p < places s };

    ghost read: { (s : Self) (all : List ℕ) (size n p : ℕ) → n < sectors s → lies s n ≡ Some p → bytes s all size n ≡ place_of all size p };

    // What is written into the place of a sector is that sector's, and no other's.
    ghost written: { (s : Self) (all xs : List ℕ) (size n p k : ℕ) → n < sectors s → lies s n ≡ Some p → places s * size ≤ length all → length xs ≡ size → bytes s (put_mid (p * size) size all xs) size k ≡ cond (k == n) xs (bytes s all size k) };
}
