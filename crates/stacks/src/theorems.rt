ghost use Rattle.stacks.specs.Consequences.{Decided, Echo};

// The law fixes what each accepted read gives, and a read after an accepted write of its sector gives what was written.
pub fn law_decides_reads()
    ensures decided { Decided }
    ensures echo { Echo }
{}
