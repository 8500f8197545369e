// Products on every lane of a vector.
ghost use Rattle.std.specs.Prelude.{◌≡◌, ◌+◌, ◌*◌, ◌≤◌, length};
ghost use borrow.Rule.Slice.PartMut.{put_mid};
ghost use Rattle.scalar.specs.Vectors.{placewise};
ghost use Rattle.adjoint.specs.Lanes.{lane_of, product_of, combined, lane_product, with_products};

use scalar::Scalar;
use scalar::matrix::minus_transposed_product;
use scalar::vectors::{add_assign, sub_assign};

// What a part does with a product. No closure in its place: the equations of the rules in specs/ name the mode, and would
// become relations over the closure's calls.
#[derive(Clone, Copy)]
pub enum Mode {
    // the part is replaced by it
    Become,
    // it is subtracted
    Lose,
    // it is added
    Gain,
}

// A product that every lane meets: of one matrix, which lies row by row and is as wide as a lane's part, and the lane's own
// vector, which has as many numbers as the matrix has rows. Matrix and lanes lie in flat slices with a size beside them, and
// in no arrays: the sizes are the model's, and the lanes are one lent slice, which is a rule of the project.
#[derive(Clone, Copy)]
pub(crate) struct Product<'m, 'v, N> {
    pub(crate) mode: Mode,
    pub(crate) matrix: &'m [N],
    pub(crate) rows: usize,
    pub(crate) vectors: &'v [N],
}

// `space` is working space, as wide as a part. Inlined into each rule, whose mode is fixed there, and a small model's sizes
// with it: as calls the products of the contact model took two to three and a half times as long.
impl<'m, 'v, N: Scalar> Product<'m, 'v, N> {
    // One lane's part becomes, loses or gains its product.
    #[inline(always)]
    fn meet_part(&self, vector: &[N], part: &mut [N], space: &mut [N])
        requires { (length self.now.matrix.now ≡ length vector.now * length part.old) × (length space.old ≡ length part.old) }
        ensures { part.new ≡ placewise (combined N.Scalar.kind.ops self.now.mode) part.old (product_of N.Scalar.kind.ops self.now.matrix.now (length part.old) vector.now) }
    {
        let _ = minus_transposed_product(self.matrix, vector, space);
        match self.mode {
            Mode::Become => part.copy_from_slice(space),
            Mode::Lose => sub_assign(part, space),
            Mode::Gain => add_assign(part, space),
        }
    }

    // The part of lane i, among those of all lanes.
    #[inline(always)]
    fn meet_lane(&self, i: usize, parts: &mut [N], space: &mut [N])
        requires matrix { length self.now.matrix.now ≡ self.now.rows * length space.old }
        requires vector { i * self.now.rows + self.now.rows ≤ length self.now.vectors.now }
        requires part { i * length space.old + length space.old ≤ length parts.old }
        ensures { let w = length space.old in parts.new ≡ put_mid (i * w) w parts.old (lane_product N.Scalar.kind.ops self.now.mode self.now.matrix.now w self.now.rows self.now.vectors.now i (lane_of w parts.old i)) }
    {
        let a = i * self.rows;
        let b = i * space.len();
        let vector = &self.vectors[a..a + self.rows];
        self.meet_part(vector, &mut parts[b..b + space.len()], space);
    }

    // Each of `lanes` parts becomes, loses or gains the transposed product.
    #[tactic(auto, using(scalar::proofs::Rows::row_within))]
    #[inline(always)]
    pub(crate) fn meet(&self, lanes: usize, parts: &mut [N], space: &mut [N])
        requires { (length self.now.matrix.now ≡ self.now.rows * length space.old) × ((length self.now.vectors.now ≡ lanes * self.now.rows) × (length parts.old ≡ lanes * length space.old)) }
        ensures { parts.new ≡ with_products N.Scalar.kind.ops self.now.mode self.now.matrix.now (length space.old) self.now.rows self.now.vectors.now lanes parts.old }
    {
        // Not by `chunks_mut`: a part may be empty, and of what it lent a proof knows the length alone.
        for i in 0..lanes {
            self.meet_lane(i, parts, space);
        }
    }
}
