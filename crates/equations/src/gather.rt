// The derivatives of a model's function, gathered into a matrix, so that products work on plain numbers.
ghost use Rattle.std.specs.Prelude.{◌≡◌, ◌<◌, length};
ghost use Rattle.equations.specs.Model.{gathered, matrix_of, Gathers};

use crate::OdeEquations;
use crate::op::{Op, Wrt};
use scalar::Scalar;

// Fills `out` with the matrix that has so many columns, row by row. At a refusal the places before it are filled and the
// others stay. A struct of the function, what it is derived by and the columns would only be written out at each call.
#[tactic(auto, using(crate::proofs::Fills::gathered_meets, std::proofs::lemmas::Grind::common_steps))]
pub fn gather<N: Scalar, E: OdeEquations<N>>(
    eqn: &E,
    op: Op,
    wrt: Wrt,
    columns: usize,
    t: N::Time,
    x: &[N],
    out: &mut [N],
) -> Result<(), E::Fault>
    ensures answer { result ≡ (gathered (E.OdeEquations.model eqn.now) op wrt columns t x.now out.old).answer }
    ensures cells { out.new ≡ (gathered (E.OdeEquations.model eqn.now) op wrt columns t x.now out.old).cells }
    ensures matrix { 0 < columns → Gathers (matrix_of (E.OdeEquations.model eqn.now) op wrt columns t x.now (length out.old)) result out.new }
{
    // a matrix without columns has no place
    if columns == 0 {
        return Ok(());
    }
    // row and column count along with the place, so that nothing is divided
    let mut i = 0;
    let mut j = 0;
    for cell in out.iter_mut() {
        *cell = eqn.derivative(op, wrt.column(j), t, x, i)?;
        j += 1;
        if j == columns {
            j = 0;
            i += 1;
        }
    }
    Ok(())
}
