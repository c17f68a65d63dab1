//! What questions ask of the F-jumping numbers of a polynomial.
ghost use Rattle.std.specs.Prelude.{◌≡◌, ◌≢◌, ◌≤◌, ◌^◌, All, Any, IfOk, map};
ghost use Rattle.std.specs.List.{AllZip};
ghost use Rattle.fj_coeff.specs.PrimeField.{prime_field};
ghost use Rattle.fj_plain.specs.declared.order_name.OrderName.TheVariants as orders;
ghost use Rattle.fj_plain.specs.Holds.{Holds};
ghost use Rattle.fj_ideal.specs.Lists.{NoProduct, RunFor};
ghost use Rattle.fj_ideal.specs.Stop.{StopsOnlyWith};
ghost use Rattle.fj_jump.specs.Lists.{IsHighInSearch};
ghost use Rattle.fj_shell.specs.Asked.{IsNonconstantAt};
ghost use Rattle.fj_shell.specs.Named.{polynomial_at};
ghost use Rattle.fj_session.specs.Jumps.{CertifiesJumps, IsListOfJumps, IsShownJumps};
ghost use Rattle.fj_session.specs.Outcome.{IsShownRow, PrintStops, ShowsSomeRow};

use super::certified::Certified;
use super::limits::nonconstant;
use super::shown::shown_basis;
use super::types::{Answer, ShownJump, ShownJumps};
use fj_basis::Stop;
use fj_coeff::Coeff;
use fj_jump::{JumpList, JumpRow, Limits, search};
use fj_plain::{Cert, OrderName};
use fj_script::{Asked, Env};
use std::alloc::Global;

/// The F-jumping numbers of a polynomial among the candidates, and the gaps in which others lie.
pub(crate) fn jumps<K: Coeff>(
    alloc: Global,
    env: &Env,
    asked: &Asked,
    f: u32,
    e: u32,
) -> Result<Certified, Stop>
    requires field { K.field ≡ prime_field env.now.p }
    requires prime { K.SIZE ≡ K.P }
    requires named { IsNonconstantAt env.now f }
    requires positive { 1 ≤ e }
    requires small { K.P ^ e ≤ 65536 }
    ensures answer { IfOk result (λ c. IsShownJumps K.field asked.now.order (polynomial_at env.now f) e c.answer) }
    ensures certificates { IfOk result (λ c. CertifiesJumps K.field asked.now.order (polynomial_at env.now f) c.answer c.certificates.items) }
    ensures hold { IfOk result (λ c. All Holds c.certificates.items) }
    ensures stop { StopsOnlyWith K.field (IsListOfJumps K.field asked.now.order (polynomial_at env.now f) e) (IsHighInSearch K.field (polynomial_at env.now f) e) asked.now.budget result }
{
    let polynomial = nonconstant::<K>(alloc, env, f)?;
    let _ = polynomial.is_zero();
    let mut limits = Limits::of(alloc, polynomial, asked.budget);
    let found = search(alloc, &mut limits, e)?;
    let (jumps, certificates) = shown_jumps(alloc, &found.jumps, asked.order, asked.budget)?;
    let answer = Answer::Jumps {
        jumps,
        gaps: found.unsettled,
        complete: found.complete,
    };
    Ok(Certified {
        answer,
        certificates,
    })
}

/// The rows, each ideal by its reduced basis for the order with this name, and the certificates of these bases.
fn shown_jumps<K: Coeff>(
    alloc: Global,
    jumps: &JumpList<K>,
    order: OrderName,
    budget: u64,
) -> Result<(ShownJumps, Vec<Cert>), Stop>
    requires { K.SIZE ≡ K.P }
    ensures numbers { IfOk result (λ shown. map (λ row. row.at) shown.0 ≡ map (λ row. row.at) jumps.now) }
    ensures rows { IfOk result (λ shown. AllZip (ShowsSomeRow K.field order jumps.now) shown.0 shown.1.items) }
    ensures stop { StopsOnlyWith K.field (RunFor order (λ L. (order ≢ orders.Grevlex) × Any (λ row. L ≡ row.ideal.members) jumps.now)) NoProduct budget result }
{
    let mut rows = Vec::with_capacity(alloc, jumps.len())?;
    let mut certificates = Vec::with_capacity(alloc, jumps.len())?;
    for place in 0..jumps.len() {
        let (row, cert) = shown_jump(alloc, jumps.get(place), order, budget)?;
        rows.push(row)?;
        certificates.push(cert)?;
    }
    Ok((ShownJumps::of(rows), certificates))
}

/// The row, its ideal by the reduced basis for the order with this name, and the certificate of this basis.
fn shown_jump<K: Coeff>(
    alloc: Global,
    row: &JumpRow<K>,
    order: OrderName,
    budget: u64,
) -> Result<(ShownJump, Cert), Stop>
    requires { K.SIZE ≡ K.P }
    ensures row { IfOk result (λ shown. IsShownRow K.field order row.now shown.0 shown.1) }
    ensures stop { PrintStops K.field order row.now.ideal.members budget result }
{
    let (ideal, cert) = shown_basis(alloc, &row.ideal, order, budget)?;
    Ok((ShownJump { at: row.at, ideal }, cert))
}
