ghost use Rattle.text.specs.Writing.{TextLaws};

// Reading words, numbers, blocks and lists undoes writing them, and nothing else is read.
pub fn text_laws_hold()
    ensures { TextLaws }
{}
