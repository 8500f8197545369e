// Products of a matrix and a vector. A matrix lies row by row in a slice; the vectors say how many rows and columns it has.
ghost use Rattle.std.specs.Prelude.{◌≡◌, ℕ, ◌*◌, ◌<◌, length, map, if◌then◌else◌, Ok, Err, ◌==◌, IsTrue, false, MatchResult};
ghost use Rattle.std.specs.List.{range_with_len};
ghost use Rattle.scalar.specs.declared.matrix.SizeFault.TheVariants.{Matrix};
ghost use Rattle.scalar.specs.Vectors.{product as product_of, minus_transposed, row_times, column_times, row_by_row, fills};

use crate::Scalar;
use crate::vectors::dot;

// The matrix has not as many entries as its rows and columns ask for; nothing was written.
#[derive(Clone, Copy, Debug)]
pub enum SizeFault {
    Matrix,
}

// Whether a matrix of so many rows and columns lies in the slice.
pub fn fills<N: Scalar>(m: &[N], rows: usize, columns: usize) -> bool
    ensures { result ≡ fills m.now rows columns }
{
    rows.checked_mul(columns) == Some(m.len())
}

// A matrix whose slice has as many entries as its rows and columns ask for, so that each place of it may be read.
#[derive(Drop)]
struct Rows<'a, N> {
    entries: &'a [N],
    rows: usize,
    columns: usize,
    ghost full: { length entries.now ≡ rows * columns },
}

// That an index lies within is a premise of each method: a type of such indices would be made anew at each call.
impl<'a, N: Scalar> Rows<'a, N> {
    fn new(entries: &'a [N], rows: usize, columns: usize) -> Result<Rows<'a, N>, SizeFault>
        ensures { MatchResult result (λ m. IsTrue (fills entries.now rows columns) × (m.entries.now ≡ entries.now) × (m.rows ≡ rows) × (m.columns ≡ columns)) (λ e. (fills entries.now rows columns ≡ false) × (e ≡ Matrix)) }
    {
        if fills(entries, rows, columns) {
            Ok(Rows {
                entries,
                rows,
                columns,
            })
        } else {
            Err(SizeFault::Matrix)
        }
    }

    fn entry(&self, i: usize, j: usize) -> N
        requires { (i < self.now.rows) × (j < self.now.columns) }
        ensures { result ≡ row_by_row N.Scalar.kind.ops self.now.entries.now self.now.columns i j }
    {
        self.entries[i * self.columns + j]
    }

    // The product of row i and v.
    fn row_times(&self, i: usize, v: &[N]) -> N
        requires { (length v.now ≡ self.now.columns) × (i < self.now.rows) }
        ensures { result ≡ row_times N.Scalar.kind.ops (row_by_row N.Scalar.kind.ops self.now.entries.now self.now.columns) v.now i }
    {
        let start = i * self.columns;
        dot(&self.entries[start..start + self.columns], v)
    }

    // The product of column j and v.
    fn column_times(&self, j: usize, v: &[N]) -> N
        requires { (length v.now ≡ self.now.rows) × (j < self.now.columns) }
        ensures { result ≡ column_times N.Scalar.kind.ops (row_by_row N.Scalar.kind.ops self.now.entries.now self.now.columns) v.now j }
    {
        let mut sum = N::whole(0);
        for (i, x) in v.iter().enumerate() {
            sum = sum + self.entry(i, j) * *x;
        }
        sum
    }

    // The sign is taken of the whole sum, so that a sum of 0 gives -0.
    fn minus_column(&self, j: usize, v: &[N]) -> N
        requires { (length v.now ≡ self.now.rows) × (j < self.now.columns) }
        ensures { result ≡ N.Scalar.kind.ops.negated (column_times N.Scalar.kind.ops (row_by_row N.Scalar.kind.ops self.now.entries.now self.now.columns) v.now j) }
    {
        -self.column_times(j, v)
    }
}

// Writes f(i) to each place i. Private, since a public function here asks nothing of its caller, and this one must ask
// that f may be called.
fn fill<N: Copy, F: Fn(usize) -> N>(out: &mut [N], f: F)
    requires { (i : ℕ) → i < length out.old → F.pre f i }
    ensures { (entry : ℕ → N) → ((i : ℕ) (r : N) → F.post f i r → r ≡ entry i) → out.new ≡ map entry (range_with_len 0 (length out.old)) }
{
    for (i, y) in out.iter_mut().enumerate() {
        *y = f(i);
    }
}

// out := m × v
#[tactic(auto, unfolding(crate::specs::Vectors::product))]
pub fn product<N: Scalar>(m: &[N], v: &[N], out: &mut [N]) -> Result<(), SizeFault>
    ensures answer { result ≡ (if fills m.now (length out.old) (length v.now) then Ok tt else Err Matrix) }
    ensures out { out.new ≡ (if fills m.now (length out.old) (length v.now) then product_of N.Scalar.kind.ops (row_by_row N.Scalar.kind.ops m.now (length v.now)) v.now (length out.old) else out.old) }
{
    let m = Rows::new(m, out.len(), v.len())?;
    fill(out, |i| m.row_times(i, v));
    Ok(())
}

// out := -(mᵀ × v)
#[tactic(auto, unfolding(crate::specs::Vectors::minus_transposed))]
pub fn minus_transposed_product<N: Scalar>(m: &[N], v: &[N], out: &mut [N]) -> Result<(), SizeFault>
    ensures answer { result ≡ (if fills m.now (length v.now) (length out.old) then Ok tt else Err Matrix) }
    ensures out { out.new ≡ (if fills m.now (length v.now) (length out.old) then minus_transposed N.Scalar.kind.ops (row_by_row N.Scalar.kind.ops m.now (length out.old)) v.now (length out.old) else out.old) }
{
    let m = Rows::new(m, v.len(), out.len())?;
    fill(out, |j| m.minus_column(j, v));
    Ok(())
}
