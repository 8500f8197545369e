// What a list of knots is made of. It stands apart from its functions, whose clauses use words that name this type.
ghost use Rattle.std.specs.Prelude.{◌+◌, ◌*◌, ◌≤◌, length};

// The rows lie one after the other in a slice that is lent, with their number beside it, and in no Vec: whoever lends the
// slice keeps the memory, as is a rule here for knots.
#[derive(Drop)]
pub struct HermiteInterpolator<'a, N> {
    pub(crate) rows: &'a mut [N],
    pub(crate) dim: usize,
    pub(crate) count: usize,
    ghost room: { count * (1 + 2 * dim) ≤ length rows.now },
}
