ghost use Rattle.std.specs.Prelude.{◌≡◌};
ghost use Rattle.ciphers.specs.Vectors.{Published};

// The definitions give the published vectors.
pub fn published_vectors_hold()
    ensures { Published }
{}
