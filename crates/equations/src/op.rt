// The functions of a model, and what a derivative is taken by. Models and layers match on them, and take no closures: a model
// is a table of answers, which its definition writes out case by case as well.
ghost use Rattle.std.specs.Prelude.{◌≡◌};
ghost use Rattle.equations.specs.Model.{column as column_of};

#[derive(Clone, Copy)]
pub enum Op {
    // the right-hand side
    Rhs,
    // the outputs
    Out,
    // the roots, which end a segment
    Root,
    // the state after a root
    Reset,
    // the initial state
    Init,
}

#[derive(Clone, Copy)]
pub enum By {
    State(usize),
    Parameter(usize),
    Time,
}

// What the columns of a matrix of derivatives stand for.
#[derive(Clone, Copy)]
pub enum Wrt {
    States,
    Parameters,
    // one column
    TimeOnly,
}

impl Wrt {
    // What column j stands for.
    pub(crate) fn column(self, j: usize) -> By
        ensures { result ≡ column_of self j }
    {
        match self {
            Wrt::States => By::State(j),
            Wrt::Parameters => By::Parameter(j),
            Wrt::TimeOnly => By::Time,
        }
    }
}
