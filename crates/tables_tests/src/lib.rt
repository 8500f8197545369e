// Examples of what `tables` reads and refuses. They stand apart, since a crate with tests is proved twice.
#![tactic(auto)]

#[cfg(test)]
mod tests {
    use std::alloc::{AllocError, Global};
    use std::process::Abort;
    use std::test::Fail;
    use tables::{next_break, read};

    const LARGEST: u64 = 9007199254740992;

    // How many numbers a text has in each table, or what is wrong with it.
    fn told(heap: Global, text: &[u8]) -> Result<String, AllocError> {
        match read(heap, text, LARGEST) {
            Ok(ride) => {
                let checkpoints = ride.checkpoints.as_slice().concat(heap)?.len();
                let samples = ride.samples.as_slice().concat(heap)?.len();
                let settings = ride.settings.len();
                format!(in heap; "{checkpoints} {samples} {settings}")
            }
            Err(fault) => format!(in heap; "{fault}"),
        }
    }

    fn tells(rt: &impl Abort, heap: Global, text: &[u8], expected: &str) -> Result<(), Fail> {
        let said = told(heap, text)?;
        assert!(rt; said.as_str() == expected);
        Ok(())
    }

    // The text of three tables with these rows, of which the first begins in line 2.
    fn rows(
        rt: &impl Abort,
        heap: Global,
        checkpoints: &str,
        samples: &str,
        settings: &str,
        expected: &str,
    ) -> Result<(), Fail> {
        let text = format!(in heap;
            "segment t h z v dz dv\n{checkpoints}\n\nt dg\n{samples}\n\nstart k c g b\n{settings}\n"
        )?;
        tells(rt, heap, text.as_bytes(), expected)
    }

    // A first row, with another last number.
    fn last(rt: &impl Abort, heap: Global, word: &str, expected: &str) -> Result<(), Fail> {
        let row = format!(in heap; "0 0 8 2 -1 -1 {word}")?;
        rows(rt, heap, row.as_str(), "0 1", "0 0 0 0 1", expected)
    }

    #[test]
    fn good(rt: HostRuntime) -> Result<(), Fail> {
        let heap = rt.alloc();
        rows(
            &rt,
            heap,
            "0 0 8 2 -1 -1 0\n0 2 8 0 -1 -1 0\n1 2 8 0 1 1 0\n1 5 8 3 1 1 0",
            "0 1\n2 1",
            "0 0 0 0 1",
            "28 4 5",
        )?;
        rows(
            &rt,
            heap,
            "  0 0   8 2 -1 -1 0 ",
            "",
            "0 0 0 0 1\n  \n\n",
            "7 0 5",
        )?;
        tells(
            &rt,
            heap,
            b"\n \nsegment  t h z v dz dv \n0 0 8 2 -1 -1 0\n\n\nt dg\n\nstart k c g b\n0 0 0 0 1",
            "7 0 5",
        )
    }

    #[test]
    fn values(rt: HostRuntime) -> Result<(), Fail> {
        let heap = rt.alloc();
        let text =
            b"segment t h z v dz dv\n0 -5 007 -0 9007199254740992 -9007199254740992 6\n\nt dg\n\nstart k c g b\n0 1 2 3 4";
        let Ok(ride) = read(heap, text, LARGEST) else {
            return Err(Fail::new("refused"));
        };
        let expected: [i64; 7] = [0, -5, 7, 0, 9007199254740992, -9007199254740992, 6];
        assert!(rt; ride.checkpoints.as_slice() == [expected].as_slice());
        let settings: [i64; 5] = [0, 1, 2, 3, 4];
        assert!(rt; ride.settings == settings);
        Ok(())
    }

    #[test]
    fn words(rt: HostRuntime) -> Result<(), Fail> {
        let heap = rt.alloc();
        last(&rt, heap, "x", "line 2: not a whole number")?;
        last(&rt, heap, "+1", "line 2: not a whole number")?;
        last(&rt, heap, "-", "line 2: not a whole number")?;
        last(&rt, heap, "0\r", "line 2: not a whole number")?;
        last(
            &rt,
            heap,
            "99999999999999999999x",
            "line 2: not a whole number",
        )?;
        last(
            &rt,
            heap,
            "9007199254740993",
            "line 2: a number is too large",
        )?;
        last(
            &rt,
            heap,
            "-99999999999999999999",
            "line 2: a number is too large",
        )?;
        last(&rt, heap, "", "line 2: too few numbers")?;
        last(&rt, heap, "0 0", "line 2: too many numbers")
    }

    #[test]
    fn lines(rt: HostRuntime) -> Result<(), Fail> {
        let heap = rt.alloc();
        let row = "0 0 8 2 -1 -1 0";
        rows(
            &rt,
            heap,
            "1 0 8 2 -1 -1 0",
            "0 1",
            "0 0 0 0 1",
            "line 2: the segment is neither that of the row before nor the next, from 0 on",
        )?;
        rows(
            &rt,
            heap,
            "0 0 8 2 -1 -1 0\n2 0 8 2 -1 -1 0",
            "0 1",
            "0 0 0 0 1",
            "line 3: the segment is neither that of the row before nor the next, from 0 on",
        )?;
        rows(
            &rt,
            heap,
            "1 0 8 2 -1 -1 0\n0 0 x",
            "0 1",
            "0 0 0 0 1",
            "line 3: not a whole number",
        )?;
        rows(
            &rt,
            heap,
            "",
            "0 1",
            "0 0 0 0 1",
            "line 1: no checkpoint stands below these names",
        )?;
        rows(
            &rt,
            heap,
            row,
            "0\t1",
            "0 0 0 0 1",
            "line 5: not a whole number",
        )?;
        rows(
            &rt,
            heap,
            row,
            "0 1",
            "",
            "line 7: no row stands below these names",
        )?;
        rows(
            &rt,
            heap,
            row,
            "0 1",
            "0 0 0 0 1\n0 0 0 0 1",
            "line 9: nothing may follow the row of settings",
        )?;
        rows(
            &rt,
            heap,
            row,
            "0 1",
            "0 0 0 0 1\n\nx",
            "line 10: nothing may follow the row of settings",
        )
    }

    #[test]
    fn names(rt: HostRuntime) -> Result<(), Fail> {
        let heap = rt.alloc();
        tells(
            &rt,
            heap,
            b"",
            "line 1: the table 'segment t h z v dz dv' is missing",
        )?;
        tells(
            &rt,
            heap,
            b"segment t h z v dz dv\r\n",
            "line 1: the names 'segment t h z v dz dv' are expected here",
        )?;
        tells(
            &rt,
            heap,
            b"segment t h z v dz dv\n0 0 8 2 -1 -1 0\n",
            "line 3: the table 't dg' is missing",
        )?;
        tells(
            &rt,
            heap,
            b"segment t h z v dz dv\n0 0 8 2 -1 -1 0\n\nt\n",
            "line 4: the names 't dg' are expected here",
        )?;
        tells(
            &rt,
            heap,
            b"segment t h z v dz dv\n0 0 8 2 -1 -1 0\n\nt dg\n0 1",
            "line 6: the table 'start k c g b' is missing",
        )
    }

    #[test]
    fn long(rt: HostRuntime) -> Result<(), Fail> {
        let heap = rt.alloc();
        let blanks = vec![in heap; b' '; 1000000]?;
        let nines = vec![in heap; b'9'; 1000000]?;
        let mut digits = Vec::new(heap);
        digits.extend_from_slice(b"segment t h z v dz dv\n")?;
        digits.extend_from_slice(nines.as_slice())?;
        tells(
            &rt,
            heap,
            blanks.as_slice(),
            "line 2: the table 'segment t h z v dz dv' is missing",
        )?;
        tells(
            &rt,
            heap,
            digits.as_slice(),
            "line 2: a number is too large",
        )
    }

    #[test]
    fn breaks(rt: HostRuntime) {
        assert_eq!(rt; next_break(b"ab c\nd", 0), 2);
        assert_eq!(rt; next_break(b"ab c\nd", 3), 4);
        assert_eq!(rt; next_break(b"ab c\nd", 5), 6);
        assert_eq!(rt; next_break(b"a\tb", 9), 3);
    }
}
