//! Theorems on sessions, over the definitions alone. A function of this module does nothing: its clause is the theorem,
//! and the check proves it.

ghost use Rattle.fj_grammar.specs.Beginning.{BeginningIsLegal};
ghost use Rattle.fj_grammar.specs.FirstFault.{FaultIsKnown, NothingBeforeIsWrong, OthersFailAtFirst};
ghost use Rattle.fj_grammar.specs.GrammarLaws.{AcceptedIsSession, SessionIsAccepted};
ghost use Rattle.fj_grammar.specs.Rank.{KindIsHighest};

/// A session that is accepted is one of the grammar, with its meaning.
pub fn accepted_is_session()
    ensures { AcceptedIsSession }
{}

/// A session of the grammar is accepted, with its meaning.
pub fn session_is_accepted()
    ensures { SessionIsAccepted }
{}

/// Nothing before the place of a fault is wrong: a session that is the same in the lines before it and in the tokens of its
/// line before it has no fault at one of these tokens, or before them.
pub fn nothing_before_is_wrong()
    ensures { NothingBeforeIsWrong }
{}

/// A fault is known with the token after its place: a session that is the same through that token has this very fault,
/// whatever follows.
pub fn fault_is_known()
    ensures { FaultIsKnown }
{}

/// The text before the place of a fault is legal: its tokens can go on to the ring's line, where there is none yet, and
/// else to a statement, of this session or of one in which the same words mean the same. Two beginnings are doomed and
/// yet not wrong: a comma after seven variables, and a fraction with numerator 0 where t has to be above 0.
pub fn beginning_is_legal()
    ensures { BeginningIsLegal }
{}

/// The kind of a fault is the highest that could stand at its place, and it has its cause there. Byte is reported at a bad byte
/// and nowhere else; NoRing at the first token, where it is the word of another statement than the ring's; Syntax where the line
/// may not end, or at a token that no statement may have there and at which no other kind has its cause; the kinds of a number
/// or a word where a number or a word may stand; Large, Arity and Many where the text up to the place has it. Prime is above
/// Wide, Vars above Taken, Taken and Large above Many, and Wide above Large, Range and Many.
pub fn kind_is_highest()
    ensures { KindIsHighest }
{}

/// A session of more than 1,048,576 bytes is Long at 1:1, and one without a token is NoRing there. The laws above are about
/// all the others.
pub fn others_fail_at_first()
    ensures { OthersFailAtFirst }
{}
