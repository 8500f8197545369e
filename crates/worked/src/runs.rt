// The rows of the table, run.
use checkpointing::interpolator::HermiteInterpolator;
use scalar::Scalar;
use std::alloc::{AllocError, Global};
use std::process::Abort;
use std::test::Fail;

// The number x, n times.
fn filled<N: Scalar + Drop>(heap: Global, x: u64, n: usize) -> Result<Vec<N>, AllocError> {
    vec![in heap; N::whole(x); n]
}

// One knot more; None where the list did not take it.
fn push<N: Scalar + Drop>(
    heap: Global,
    list: &mut HermiteInterpolator<N>,
    t: u64,
    u: u64,
    f: u64,
) -> Result<Option<()>, Fail> {
    let u = filled::<N>(heap, u, 1)?;
    let f = filled::<N>(heap, f, 1)?;
    let at = N::whole(t).time().ok_or("no time")?;
    Ok(list.push(at, u.as_slice(), f.as_slice()))
}

// What the knots (0, state 1, slope 0) and (2, state 5, slope 4) answer at a whole time; None where there is no answer.
fn looked<N: Scalar + Drop>(rt: &impl Abort, heap: Global, t: u64) -> Result<Option<N>, Fail> {
    let mut rows = filled::<N>(heap, 0, 6)?;
    let mut out = filled::<N>(heap, 0, 1)?;
    let mut list = HermiteInterpolator::new(rows.as_mut_slice(), 1);
    assert!(rt; push(heap, &mut list, 0, 1, 0)?.is_some());
    assert!(rt; push(heap, &mut list, 2, 5, 4)?.is_some());
    let at = N::whole(t).time().ok_or("no time")?;
    let found = list.interpolate(at, out.as_mut_slice());
    Ok(found.and_then(|()| out.first().copied()))
}

// That each row of look-ups gives the same number in a format.
fn look_ups<N: Scalar + Drop>(rt: &impl Abort, heap: Global) -> Result<(), Fail> {
    for (t, value) in [(0, 1), (1, 2), (2, 5)] {
        let x = looked::<N>(rt, heap, t)?.ok_or("no answer")?;
        assert!(rt; x.equals(N::whole(value)));
    }
    assert!(rt; looked::<N>(rt, heap, 3)?.is_none());
    Ok(())
}

#[test]
fn look_ups_64(rt: HostRuntime) -> Result<(), Fail> {
    look_ups::<f64>(&rt, rt.alloc())
}

#[test]
fn look_ups_32(rt: HostRuntime) -> Result<(), Fail> {
    look_ups::<f32>(&rt, rt.alloc())
}
