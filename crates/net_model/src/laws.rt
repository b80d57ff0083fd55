// What the tests of a draft decide.

ghost use Rattle.net_model.specs.Laws.{TestsDecideValidity};

/// Does nothing: its clause says that a draft is valid exactly where its tests find no fault. The names
/// of its wires are of a type that keeps that they are names.
pub fn law_of_drafts()
    ensures { TestsDecideValidity }
{}
