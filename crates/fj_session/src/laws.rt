//! Theorems on answers, over the definitions alone. A function of this module does nothing: its clause is the theorem, and
//! the check proves it.

ghost use Rattle.fj_session.specs.AnswerLaws.{StopsHaveCauses};

/// Where no list of a question is unfinished at its budget or too high, and none of its products is too high, the question
/// has its answer: no stop is one.
pub fn stops_have_causes()
    ensures { StopsHaveCauses }
{}
