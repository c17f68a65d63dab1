//! The answers.

use fj_ratio::Ratio;

/// The number nu(e) of f at an ideal J (Mustață, Takagi and Watanabe 2005).
#[derive(Clone, Copy, Debug)]
pub enum Nu {
    /// The greatest r such that f^r isn't in the Frobenius power J^[q], q = p^e.
    Is(u64),
    /// J has 1.
    Unit,
    /// J is proper, and f isn't in it.
    NotIn,
}

/// The F-threshold of f at an ideal J, as far as the candidates of C_e tell it (Mustață, Takagi and Watanabe 2005).
#[derive(Clone, Copy, Debug)]
pub enum Threshold {
    /// This candidate is the threshold.
    At(Ratio),
    /// No candidate is the threshold. Of the gaps of 0 and the candidates this one alone has it inside: the test ideal at the
    /// lower end isn't inside J, and the limit from the left at the upper end is.
    Between(Ratio, Ratio),
    /// J is proper, and f isn't in it.
    NotIn,
    /// J has 1.
    Unit,
    /// f isn't zero at the point.
    Off,
}
