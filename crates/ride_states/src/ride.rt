// A ride of the contact model in f64: its checkpoints, the ends of its segments, and the state at an instant.
use anyhow::{Context, anyhow};
use checkpointing::interpolator::HermiteInterpolator;
use scalar::Scalar;
use scalar::times::Finite64;
use scalar::whole::integer;
use std::alloc::Global;

// The state is z and v.
#[derive(Clone, Copy)]
pub struct Checkpoint {
    segment: usize,
    t: Finite64,
    state: [f64; 2],
    slope: [f64; 2],
}

// Whole numbers in the table are far from the ends of f64, so each is a time.
pub(crate) fn time_of(n: i64) -> anyhow::Result<Finite64> {
    integer::<f64>(n).time().context("a time is not finite")
}

// A row of the first table: segment, t, h, z, v, dz, dv.
fn parse_row(row: &[i64; 7]) -> anyhow::Result<Checkpoint> {
    let [segment, t, _, z, v, dz, dv] = *row;
    let Ok(segment) = usize::try_from(segment) else {
        return Err(anyhow!("a segment's number is not negative"));
    };
    Ok(Checkpoint {
        segment,
        t: time_of(t)?,
        state: [integer(z), integer(v)],
        slope: [integer(dz), integer(dv)],
    })
}

pub(crate) fn checkpoints(heap: Global, rows: &[[i64; 7]]) -> anyhow::Result<Vec<Checkpoint>> {
    rows.iter().map(parse_row).try_collect(heap)
}

// The first and the last time of each segment.
pub(crate) fn ends(
    heap: Global,
    points: &[Checkpoint],
) -> anyhow::Result<Vec<(Finite64, Finite64)>> {
    let mut out = Vec::new(heap);
    for segment in points.chunk_by(|a, b| a.segment == b.segment) {
        if let Some((first, last)) = segment.first().zip(segment.last()) {
            out.push((first.t, last.t))?;
        }
    }
    Ok(out)
}

// The state at t between the checkpoints of a segment, which are taken as knots.
pub(crate) fn state_at(
    heap: Global,
    points: &[Checkpoint],
    segment: usize,
    t: Finite64,
) -> anyhow::Result<Option<[f64; 2]>> {
    let mut rows = vec![in heap; 0.0; points.len().saturating_mul(5)]?;
    let mut out = [0.0; 2];
    let mut knots = HermiteInterpolator::new(rows.as_mut_slice(), 2);
    for p in points {
        if p.segment == segment {
            let _ = knots.push(p.t, &p.state, &p.slope);
        }
    }
    let found = knots.interpolate(t, &mut out);
    Ok(found.map(|()| out))
}
