//! The points that questions name.
ghost use Rattle.std.specs.Prelude.{◌≡◌, IfOk};
ghost use Rattle.fj_coeff.specs.PrimeField.{prime_field};
ghost use Rattle.fj_shell.specs.Asked.{IsPointAt};
ghost use Rattle.fj_shell.specs.Named.{point_at};

use fj_coeff::Coeff;
use fj_poly::Point;
use fj_script::Env;
use fj_shell::point_at;
use std::alloc::{AllocError, Global};

/// The point of a name.
pub(crate) fn point<K: Coeff>(alloc: Global, env: &Env, at: u32) -> Result<Point<K>, AllocError>
    requires field { K.field ≡ prime_field env.now.p }
    requires named { IsPointAt env.now at }
    ensures { IfOk result (λ p. p ≡ point_at env.now at) }
{
    // The ring has at most seven variables.
    let _ = env.vars.len();
    let ranks = point_at(env, at);
    let mut coordinates = Vec::with_capacity(alloc, ranks.len())?;
    for i in 0..ranks.len() {
        coordinates.push(K::of_rank(*ranks.get(i)))?;
    }
    Point::of(alloc, &coordinates)
}
