ghost use Rattle.sector.specs.Inverse.{Inverse};
ghost use Rattle.sector.specs.Marked.{Marked};

// Enciphering and deciphering undo each other, whatever the block function, the hash and the tweak are.
pub fn transform_is_inverse()
    ensures { Inverse }
{}

// The marked cases hold of the definitions.
pub fn marked_cases_hold()
    ensures { Marked }
{}
