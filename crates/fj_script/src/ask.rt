//! The words of questions.
ghost use Rattle.std.specs.Prelude.{◌≡◌};
ghost use Rattle.fj_script.specs.Question.{ask_of, asks_ideal, ideal_ask_of, is_above_zero};

/// The word that names a question.
#[derive(Clone, Copy)]
pub enum Ask {
    Parts,
    Member,
    OneIdeal(OneIdeal),
    TwoIdeals(TwoIdeals),
    Frobenius(Frobenius),
    TestIdeal(TestIdeal),
    Jumps,
    Nu,
    Threshold,
    Pure,
    Compatible,
}

/// The questions on one ideal.
#[derive(Clone, Copy)]
pub enum OneIdeal {
    Basis,
    Split,
}

/// The questions on two ideals.
#[derive(Clone, Copy)]
pub enum TwoIdeals {
    Same,
    Sum,
    Product,
    Meet,
    Colon,
}

/// The questions on a Frobenius power or root.
#[derive(Clone, Copy)]
pub enum Frobenius {
    Power,
    Root,
}

/// The questions on a test ideal.
#[derive(Clone, Copy)]
pub enum TestIdeal {
    Test,
    Left,
    IsJump,
    Regular,
}

impl TestIdeal {
    /// Whether the exponent has to be above 0.
    pub(crate) fn is_above_zero(self) -> bool
        ensures { result ≡ is_above_zero self }
    {
        match self {
            TestIdeal::Left => true,
            TestIdeal::IsJump => true,
            TestIdeal::Test => false,
            TestIdeal::Regular => false,
        }
    }
}

impl Ask {
    /// Whether the question has an ideal as its answer.
    fn asks_ideal(self) -> bool
        ensures { result ≡ asks_ideal self }
    {
        match self {
            Ask::OneIdeal(_) => true,
            Ask::TwoIdeals(TwoIdeals::Same) => false,
            Ask::TwoIdeals(_) => true,
            Ask::Frobenius(_) => true,
            Ask::TestIdeal(TestIdeal::Test) => true,
            Ask::TestIdeal(TestIdeal::Left) => true,
            _ => false,
        }
    }
}

/// The question that a word names.
#[tactic(auto, unfolding(crate::specs::Question::ask_of))]
pub(crate) fn ask_of(word: &[u8]) -> Option<Ask>
    ensures { result ≡ ask_of word.now }
{
    match word {
        b"parts" => Some(Ask::Parts),
        b"basis" => Some(Ask::OneIdeal(OneIdeal::Basis)),
        b"member" => Some(Ask::Member),
        b"same" => Some(Ask::TwoIdeals(TwoIdeals::Same)),
        b"sum" => Some(Ask::TwoIdeals(TwoIdeals::Sum)),
        b"product" => Some(Ask::TwoIdeals(TwoIdeals::Product)),
        b"meet" => Some(Ask::TwoIdeals(TwoIdeals::Meet)),
        b"colon" => Some(Ask::TwoIdeals(TwoIdeals::Colon)),
        b"power" => Some(Ask::Frobenius(Frobenius::Power)),
        b"root" => Some(Ask::Frobenius(Frobenius::Root)),
        b"test" => Some(Ask::TestIdeal(TestIdeal::Test)),
        b"left" => Some(Ask::TestIdeal(TestIdeal::Left)),
        b"isjump" => Some(Ask::TestIdeal(TestIdeal::IsJump)),
        b"regular" => Some(Ask::TestIdeal(TestIdeal::Regular)),
        b"jumps" => Some(Ask::Jumps),
        b"nu" => Some(Ask::Nu),
        b"threshold" => Some(Ask::Threshold),
        b"fpure" => Some(Ask::Pure),
        b"split" => Some(Ask::OneIdeal(OneIdeal::Split)),
        b"compatible" => Some(Ask::Compatible),
        _ => None,
    }
}

/// The question that a word names, where it has an ideal as its answer.
#[tactic(auto, unfolding(crate::specs::Question::ideal_ask_of))]
pub(crate) fn ideal_ask_of(word: &[u8]) -> Option<Ask>
    ensures { result ≡ ideal_ask_of word.now }
{
    let ask = ask_of(word)?;
    if ask.asks_ideal() { Some(ask) } else { None }
}
