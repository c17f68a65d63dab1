//! Names of monomial orders.
ghost use Rattle.std.specs.Prelude.{◌≡◌, ◌<◌};
ghost use Rattle.fj_plain.specs.OrderRow.{order_in_row};

/// The name of a monomial order.
#[derive(Clone, Copy, Debug, PartialEq, Eq)]
pub enum OrderName {
    Lex,
    Grlex,
    Grevlex,
    Elim,
}

impl OrderName {
    /// The name in a row of the table Lex, Grlex, Grevlex, Elim, counted from 0.
    pub fn of(row: u8) -> OrderName
        requires { row < 4 }
        ensures { result ≡ order_in_row row }
    {
        match row {
            0 => OrderName::Lex,
            1 => OrderName::Grlex,
            2 => OrderName::Grevlex,
            _ => OrderName::Elim,
        }
    }
}
