//! Expressions over the field of the ring.
ghost use Rattle.std.specs.Prelude.{◌≡◌, ◌<◌, length, OnOk};
ghost use Rattle.fj_text.specs.Expression as text;
ghost use Rattle.fj_script.specs.Declaration.{expression, of_text};
ghost use Rattle.fj_script.specs.Names.{meaning};
ghost use Rattle.fj_script.specs.Seen.{Reads};

use super::fault::LineRefusal;
use super::session::Session;
use fj_coeff::{Coeff, OverField, over_prime_field};
use fj_plain::PlainPoly;
use fj_text::{Reader, read_expression};
use std::alloc::Global;

/// Reading an expression of a session.
#[derive(Drop)]
struct Reading<'s, 'r, 'a> {
    alloc: Global,
    session: &'s Session,
    reader: &'r mut Reader<'a>,
}

impl OverField for Reading<'_, '_, '_> {
    type Output = Result<PlainPoly, LineRefusal>;

    ghost can = { λ _ _. Unit {0} };

    ghost does = { λ before F value after. (after.reader.ghost_name ≡ before.reader.ghost_name)
        × Reads (λ h. h.terms) value after.reader.now (of_text (text.expression F (meaning before.session.now) before.reader.now))
        × OnOk value (length after.reader.now.left < length before.reader.now.left) };

    fn over<K: Coeff>(&mut self) -> Result<PlainPoly, LineRefusal> {
        let value = read_expression::<K, Session>(self.alloc, self.session, self.reader)?;
        Ok(value.to_plain(self.alloc)?)
    }
}

/// An expression over the field of the ring.
#[tactic(auto, unfolding(crate::specs::Declaration::expression))]
pub(crate) fn expression(
    alloc: Global,
    session: &Session,
    reader: &mut Reader,
) -> Result<PlainPoly, LineRefusal>
    ensures reads { Reads (λ h. h.terms) result reader.new (expression session.now reader.old) }
    ensures taken { OnOk result (length reader.new.left < length reader.old.left) }
{
    let p = session.prime();
    let mut reading = Reading {
        alloc,
        session,
        reader,
    };
    over_prime_field(p, &mut reading)
}
