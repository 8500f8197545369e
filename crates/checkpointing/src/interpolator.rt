// A list of knots over a lent slice: a row for each knot, with its time, its state and its slope.
ghost use Rattle.std.specs.Prelude.{◌≡◌, ◌+◌, ◌-◌, ◌*◌, ◌<◌, ◌≤◌, min, ◌&&◌, ◌||◌, [], ◌∷◌, ◌++◌, length, is_some, if◌then◌else◌, ◌==◌, nat_le};
ghost use Rattle.std.proofs.Math.Seq.{paste};
ghost use Rattle.std.specs.Option.{unwrap_or};
ghost use Rattle.checkpointing.specs.Knots.{last_not_after, asked, answer};
ghost use Rattle.checkpointing.specs.Held.{held, numbered, Fills};

use crate::hermite::{Row, fill_between};
pub use crate::list::HermiteInterpolator;
use scalar::Scalar;

// A row: the knot's time, its state and its slope.
fn fill_row<N: Scalar>(row: &mut [N], t: N, u: &[N], f: &[N])
    requires { length row.old ≡ 1 + length u.now + length f.now }
    ensures { row.new ≡ t ∷ (u.now ++ f.now) }
{
    let b = 1 + u.len();
    let c = row.len();
    row[0] = t;
    row[1..b].copy_from_slice(u);
    row[b..c].copy_from_slice(f);
}

impl<'a, N: Scalar> HermiteInterpolator<'a, N> {
    // No knots yet, of states with `dim` entries.
    pub fn new(rows: &'a mut [N], dim: usize) -> HermiteInterpolator<'a, N>
        ensures count { result.count ≡ 0 }
        ensures dim { result.dim ≡ dim }
        ensures rows { result.rows.now ≡ rows.old }
        ensures lender { result.rows.ghost_name ≡ rows.entry.ghost_name }
    {
        HermiteInterpolator {
            rows,
            dim,
            count: 0,
        }
    }

    // One knot more, after the others; None, and all stays, where it has another size or there is no room for it.
    pub fn push(&mut self, t: N::Time, u: &[N], f: &[N]) -> Option<()>
        ensures made { is_some result ≡ (length u.now == self.old.dim && (length f.now == self.old.dim && nat_le ((self.old.count + 1) * (1 + 2 * self.old.dim)) (length self.old.rows.now))) }
        ensures rows { self.new.rows.now ≡ (if is_some result then paste self.old.rows.now (self.old.count * (1 + 2 * self.old.dim)) (N.Scalar.kind.value t ∷ (u.now ++ f.now)) (1 + 2 * self.old.dim) else self.old.rows.now) }
        ensures knots { held N.Scalar.kind.ops self.new ≡ (if is_some result then (held N.Scalar.kind.ops self.old ++ record { t = N.Scalar.kind.value t; u = u.now; f = f.now } ∷ []) else held N.Scalar.kind.ops self.old) }
        ensures count { self.new.count ≡ (if is_some result then self.old.count + 1 else self.old.count) }
        ensures dim { self.new.dim ≡ self.old.dim }
        ensures lender { self.new.rows.ghost_name ≡ self.old.rows.ghost_name }
    {
        if u.len() != self.dim || f.len() != self.dim {
            return None;
        }
        let len = self.rows.len();
        if len == 0 || self.dim > (len - 1) / 2 {
            return None;
        }
        let w = 1 + 2 * self.dim;
        let a = self.count * w;
        if len - a < w {
            return None;
        }
        fill_row(&mut self.rows[a..a + w], N::value(t), u, f);
        self.count += 1;
        Some(())
    }

    // Knot k.
    fn knot(&self, k: usize) -> Row<N>
        requires { k < self.now.count }
        ensures time { result.t ≡ (numbered N.Scalar.kind.ops self.now k).t }
        ensures state { result.u.now ≡ (numbered N.Scalar.kind.ops self.now k).u }
        ensures slope { result.f.now ≡ (numbered N.Scalar.kind.ops self.now k).f }
        ensures sizes { (length result.u.now ≡ self.now.dim) × (length result.f.now ≡ self.now.dim) }
    {
        let w = 1 + 2 * self.dim;
        let a = k * w;
        let row = &self.rows[a..a + w];
        let b = 1 + self.dim;
        Row {
            t: row[0],
            u: &row[1..b],
            f: &row[b..w],
        }
    }

    fn time(&self, k: usize) -> N
        requires { k < self.now.count }
        ensures { result ≡ (numbered N.Scalar.kind.ops self.now k).t }
    {
        self.knot(k).t
    }

    // The last knot not after t, or the last but one: t lies between it and the next.
    fn lower(&self, t: N) -> usize
        requires { 1 < self.now.count }
        ensures { result ≡ min (last_not_after N.Scalar.kind.ops (numbered N.Scalar.kind.ops self.now) t self.now.count) (self.now.count - 2) }
    {
        for k in (1..self.count).rev() {
            if !t.before(self.time(k)) {
                return k.min(self.count - 2);
            }
        }
        0
    }

    // t lies before the first knot or after the last.
    fn outside(&self, t: N) -> bool
        requires { 0 < self.now.count }
        ensures { result ≡ (N.Scalar.kind.ops.before t (numbered N.Scalar.kind.ops self.now 0).t || N.Scalar.kind.ops.before (numbered N.Scalar.kind.ops self.now (self.now.count - 1)).t t) }
    {
        t.before(self.time(0)) || self.time(self.count - 1).before(t)
    }

    // The state at t into `out`, if t lies within the list: the first knot as stored, else between two knots.
    fn ask(&self, t: N, out: &mut [N]) -> Option<()>
        requires { length out.old ≡ self.now.dim }
        ensures { Fills (asked N.Scalar.kind.ops (numbered N.Scalar.kind.ops self.now) self.now.count t) result out.old out.new }
    {
        if self.count == 0 || self.outside(t) {
            return None;
        }
        if t.equals(self.time(0)) {
            out.copy_from_slice(self.knot(0).u);
            return Some(());
        }
        if self.count == 1 {
            return None;
        }
        let j = self.lower(t);
        fill_between(self.knot(j), self.knot(j + 1), t, out);
        Some(())
    }

    // The state at t into `out`, where `out` has room for a state and t lies within the list; else `out` stays.
    pub fn interpolate(&self, t: N::Time, out: &mut [N]) -> Option<()>
        ensures found { is_some result ≡ is_some (answer N.Scalar.kind.ops self.now.dim (held N.Scalar.kind.ops self.now) (length out.old) (N.Scalar.kind.value t)) }
        ensures out { out.new ≡ unwrap_or (answer N.Scalar.kind.ops self.now.dim (held N.Scalar.kind.ops self.now) (length out.old) (N.Scalar.kind.value t)) out.old }
    {
        if out.len() != self.dim {
            return None;
        }
        self.ask(N::value(t), out)
    }
}
