// Each rule run once on a model, with numbers worked out by hand: a rule's contract says what it answers, and these say
// that space for it can be made. They stand apart, since a crate with tests is proved twice.
#![tactic(auto)]

#[cfg(test)]
mod tests {
    use adjoint::correct::correct_sg_for_init;
    use adjoint::jump::{Instant, apply_delta_g};
    use adjoint::measures::Sizes;
    use adjoint::reset::{Boundary, apply_reset_with_adjoint};
    use adjoint::work::Work;
    use equations::contact::Contact;
    use scalar::Scalar;
    use std::alloc::Global;
    use std::test::Fail;

    // k 4, c 1, g 8, b 1/2: every number below is exact.
    fn contact() -> Contact<f64> {
        Contact {
            k: 4.0,
            c: 1.0,
            g: 8.0,
            b: 0.5,
        }
    }

    // For two channels.
    fn space(heap: Global) -> Result<Work<f64>, Fail> {
        let Ok(sizes) = Sizes::of::<f64, Contact<f64>>(&contact(), 2) else {
            return Err("the sizes are refused".into());
        };
        Ok(Work::new(heap, sizes)?)
    }

    // All entries of the initial state are zero.
    #[test]
    fn correction(rt: HostRuntime) -> Result<(), Fail> {
        let mut work = space(rt.alloc())?;
        let start = 0.0.time().ok_or("no time")?;
        let mut v = [1.0, 1.0, 2.0, 0.0, 1.0, 2.0, 3.0, 4.0, 5.0, 6.0, 7.0, 8.0];
        let answer = correct_sg_for_init(&contact(), start, 2, &mut v, &mut work);
        assert!(rt; answer.is_ok());
        assert!(rt; v == [1.0, 1.0, 2.0, 0.0, 1.0, 2.0, 3.0, 4.0, 5.0, 6.0, 7.0, 8.0]);
        Ok(())
    }

    // The output is z: the first number of each s gains the channel's column.
    #[test]
    fn jump(rt: HostRuntime) -> Result<(), Fail> {
        let mut work = space(rt.alloc())?;
        let t = 1.0.time().ok_or("no time")?;
        let mut v = [1.0, 1.0, 2.0, 0.0, 1.0, 2.0, 3.0, 4.0, 5.0, 6.0, 7.0, 8.0];
        let instant = Instant {
            t,
            x: &[0.5, -1.0],
            columns: &[10.0, 20.0],
        };
        let answer = apply_delta_g(&contact(), &instant, 2, &mut v, &mut work);
        assert!(rt; answer.is_ok());
        assert!(rt; v == [11.0, 1.0, 22.0, 0.0, 1.0, 2.0, 3.0, 4.0, 5.0, 6.0, 7.0, 8.0]);
        Ok(())
    }

    // The pad comes down with v = -2 and goes up with 1. Slopes: (-2, -6) below, (1, -9) above; so what is lacking is
    // (-2, 3) - (1, -9) = (-3, 12), and z falls at the rate -2. Channel 0 has s = (1, 1) and a = (-3 + 12) / -2 = -4.5,
    // so s becomes (4.5, 0) + (1, -0.5), and the gradient by b gains -v = 2. Channel 1 has s = (2, 0) and a = 3.
    #[test]
    fn reset(rt: HostRuntime) -> Result<(), Fail> {
        let mut work = space(rt.alloc())?;
        let t = 1.0.time().ok_or("no time")?;
        let mut v = [1.0, 1.0, 2.0, 0.0, 1.0, 2.0, 3.0, 4.0, 5.0, 6.0, 7.0, 8.0];
        let boundary = Boundary {
            segment: 1,
            root: Some(0),
            t,
            y: &[0.0, -2.0],
            below: &[-2.0, -6.0],
            above: &[1.0, -9.0],
        };
        let answer = apply_reset_with_adjoint(&contact(), &boundary, 2, &mut v, &mut work);
        assert!(rt; answer.is_ok());
        assert!(rt; v == [5.5, -0.5, -1.0, 0.0, 1.0, 2.0, 3.0, 6.0, 5.0, 6.0, 7.0, 8.0]);
        Ok(())
    }
}
