ghost use Rattle.answers.specs.Rendering.{ReadingLaws};

// Writing an answer as a line and reading the line are inverse to each other, but for the case of the digits.
pub fn reading_laws_hold()
    ensures { ReadingLaws }
{}
