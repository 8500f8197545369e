// Refusal 1: a size or a buffer's length is wrong.
ghost use Rattle.std.specs.Prelude.{◌≡◌, [], ◌∷◌, refl};
ghost use Rattle.std.proofs.Common.{inl};
ghost use Rattle.refusals.specs.Told.{size_told};
ghost use Rattle.refusals.specs.Sizes.{first_wrong};

use crate::Refusal;

// Which size it is, in the order in which they are tried.
#[derive(Clone, Copy, Debug)]
pub enum Size {
    Segments,
    // of one segment
    Checkpoints,
    Instants,
    Channels,
    States,
    Parameters,
    Outputs,
    Roots,
    // of one checkpoint
    CheckpointState,
    CheckpointSlope,
    // the entries of one sheet
    Sheet,
    // the columns of one instant, of all sheets
    Columns,
    // all s and all sg, or what a stepper moves
    Vector,
    ForwardState,
    Knots,
    Matrix,
    WorkingSpace,
    // a segment, an instant or a column that is to be taken
    Place,
}

// A wrong size, and the lowest index at which it is wrong.
#[derive(Clone, Copy, Debug)]
pub struct WrongSize {
    pub size: Size,
    pub index: usize,
}

impl<T> Refusal<T> for WrongSize {
    ghost told = { size_told };

    ghost numbers = { 1 ∷ [] };

    ghost listed = { λ e. inl refl };

    fn number(fault: Option<&Self>) -> Option<u8> {
        fault.map(|_| 1)
    }
}

// The first of the tests that fails is told, with its size. A test is a pair of its outcome and the size, as the definitions
// of the rules list their tests.
pub fn first_wrong(tests: &[(bool, Size)]) -> Result<(), WrongSize>
    ensures { result ≡ first_wrong tests.now }
{
    for (fits, size) in tests {
        if !*fits {
            return Err(WrongSize {
                size: *size,
                index: 0,
            });
        }
    }
    Ok(())
}
