//! Theorems on monomial orders and polynomials, over the definitions alone. A function of this module does nothing: its
//! clause is the theorem, and the check proves it.

ghost use Rattle.fj_theory.specs.PolynomialLaws.{DegreesAdd, OrdersOfKeys, PartsExist, PolynomialsAreARing, PolynomialsDetermined, PowersAdd, PowersOfCoefficients, TermsDetermine};

/// Lex, Grlex, Grevlex and the elimination order are monomial orders.
pub fn orders_of_keys()
    ensures { OrdersOfKeys }
{}

/// A polynomial is determined by its coefficients.
pub fn polynomials_determined()
    ensures { PolynomialsDetermined }
{}

/// The polynomials over a field are a commutative ring.
pub fn polynomials_are_a_ring()
    ensures { PolynomialsAreARing }
{}

/// The degree of a product is the sum of the degrees.
pub fn degrees_add()
    ensures { DegreesAdd }
{}

/// A polynomial is determined by the list of its terms, and each falling list is one.
pub fn terms_determine()
    ensures { TermsDetermine }
{}

/// Powers by powers of the characteristic add up.
pub fn powers_add()
    ensures { PowersAdd }
{}

/// The coefficients of powers by powers of the characteristic.
pub fn powers_of_coefficients()
    ensures { PowersOfCoefficients }
{}

/// Each polynomial has a list of parts.
pub fn parts_exist()
    ensures { PartsExist }
{}
