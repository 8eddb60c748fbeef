ghost use Rattle.std.specs.Prelude.{ℕ, ◌<◌, List};
ghost use Rattle.aes_rules.specs.Aes.{key_expansion, Schedule};
ghost use Rattle.aes_rules.specs.Vectors.{Published};

// The definition gives the published vectors.
pub fn published_vectors_hold()
    ensures { Published }
{}

// The schedule of a key of any number of words has the standard's rule for each of its words.
pub fn schedule_rule_holds()
    ensures { (nk : ℕ) (key : List ℕ) (n : ℕ) → 0 < nk → Schedule nk key n (key_expansion nk key n) }
{}
