//! What words stand for in an expression.
ghost use Rattle.std.specs.Prelude.{◌≡◌, ℕ, List};
ghost use Rattle.fj_text.specs.declared.scope.Meaning.{Meaning};
ghost use Rattle.fj_text.specs.Variable.{IsWithin};

/// What a word stands for.
#[derive(Clone, Copy, Debug, PartialEq, Eq)]
pub enum Meaning {
    /// The variable at this place, from 0.
    Variable(usize),
    /// Something else than a variable.
    OtherKind,
    /// Nothing.
    Unknown,
}

/// The meanings of words.
pub trait Scope {
    ghost meaning: { Self → List ℕ → Meaning };

    /// What a word stands for. The variables are at most eight.
    fn meaning(&self, word: &[u8]) -> Meaning
        ensures meaning { result ≡ meaning self.now word.now }
        ensures place { IsWithin result };
}
