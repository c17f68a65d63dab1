//! Theorems on texts, over the definitions alone. A function of this module does nothing: its clause is the theorem, and
//! the check proves it.

ghost use Rattle.fj_text.specs.Grammar.{ExpressionIsRead, ReadIsExpression};
ghost use Rattle.fj_text.specs.PrintedLaws.{PrintedIsRead};

/// The tokens that are read are an expression of the grammar, with the value that is read.
pub fn read_is_expression()
    ensures { ReadIsExpression }
{}

/// An expression of the grammar is read, with its value, where no token behind it goes on with it.
pub fn expression_is_read()
    ensures { ExpressionIsRead }
{}

/// The printed text of a polynomial over GF(p) with at most 1,000 terms and of degree at most 1,000 is read as the same
/// polynomial.
pub fn printed_is_read()
    ensures { PrintedIsRead }
{}
