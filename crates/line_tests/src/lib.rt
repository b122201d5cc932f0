//! Tests of the lines at their bounds.

#![tactic(auto)]

#[cfg(test)]
mod tests {
    use line::{Line, LineRefusal};
    use line_stages::{Differential, Repetition, Scrambling};
    use lines::{BENCH, Cascade, MarkedLine, STANDARD};
    use std::alloc::{AllocError, Global};
    use std::process::Abort;
    use std::test::Fail;

    // The handles come first and the line after them, as everywhere: a struct of the three would hide which call needs which.

    // What encode answers to `n` octets with an output of `room` places.
    fn encode<L: Line>(
        heap: Global,
        line: &L,
        octet: u8,
        n: usize,
        last: u8,
        room: usize,
    ) -> Result<Result<(), LineRefusal>, AllocError> {
        let word = vec![in heap; octet; n]?;
        let mut out = vec![in heap; 0u8; room]?;
        Ok(line.encode(&word, last, &mut out))
    }

    // What decode answers to `l` octets with an output of `room` places.
    fn decode<L: Line>(
        heap: Global,
        line: &L,
        octet: u8,
        l: usize,
        room: usize,
    ) -> Result<Result<(), LineRefusal>, AllocError> {
        let bits = vec![in heap; octet; l]?;
        let mut out = vec![in heap; 0u8; room]?;
        Ok(line.decode(&bits, &mut out))
    }

    // Whether `n` ones come back over `l` line bits.
    fn comes_back<L: Line>(
        rt: &impl Abort,
        heap: Global,
        line: &L,
        n: usize,
        l: usize,
    ) -> Result<bool, Fail> {
        let word = vec![in heap; 1u8; n]?;
        let mut bits = vec![in heap; 0u8; l]?;
        let mut back = vec![in heap; 0u8; n]?;
        assert_eq!(rt; line.encode(&word, 1, &mut bits), Ok(()));
        assert_eq!(rt; line.decode(&bits, &mut back), Ok(()));
        Ok(back == word)
    }

    // The line takes `n` bits as `l` line bits, and refuses other outputs, an octet 2 and a last bit 2.
    fn takes<L: Line>(
        rt: &impl Abort,
        heap: Global,
        line: &L,
        n: usize,
        l: usize,
    ) -> Result<(), Fail> {
        assert!(rt; n <= 4096 && l <= 4096);
        assert_eq!(rt; line.line_length(n), Some(l));
        assert!(rt; comes_back(rt, heap, line, n, l)?);
        assert_eq!(rt;
            encode(heap, line, 1, n, 1, l + 1)?,
            Err(LineRefusal::WrongLength)
        );
        assert_eq!(rt;
            decode(heap, line, 1, l, n + 1)?,
            Err(LineRefusal::WrongLength)
        );
        assert_eq!(rt; encode(heap, line, 1, n, 2, l)?, Err(LineRefusal::NotABit));
        assert_eq!(rt;
            encode(heap, line, 2, n, 2, l + 1)?,
            Err(LineRefusal::WrongLength)
        );
        if n > 0 && l > 0 {
            assert_eq!(rt;
                encode(heap, line, 1, n, 1, l - 1)?,
                Err(LineRefusal::WrongLength)
            );
            assert_eq!(rt;
                decode(heap, line, 1, l, n - 1)?,
                Err(LineRefusal::WrongLength)
            );
            assert_eq!(rt; encode(heap, line, 2, n, 1, l)?, Err(LineRefusal::NotABit));
            assert_eq!(rt; decode(heap, line, 2, l, n)?, Err(LineRefusal::NotABit));
        }
        Ok(())
    }

    // Each length is taken with its line length, and `beyond` is not.
    fn bounds<L: Line>(
        rt: &impl Abort,
        heap: Global,
        line: &L,
        lengths: [(usize, usize); 6],
        beyond: usize,
    ) -> Result<(), Fail> {
        for (n, l) in lengths {
            takes(rt, heap, line, n, l)?;
        }
        assert_eq!(rt; line.line_length(beyond), None);
        assert_eq!(rt;
            encode(heap, line, 0, beyond, 0, 4096)?,
            Err(LineRefusal::WrongLength)
        );
        assert_eq!(rt;
            decode(heap, line, 0, 4096, beyond)?,
            Err(LineRefusal::WrongLength)
        );
        Ok(())
    }

    #[test]
    fn stages(rt: HostRuntime) -> Result<(), Fail> {
        let heap = rt.alloc();
        bounds(
            &rt,
            heap,
            &Scrambling,
            [(0, 0), (1, 1), (22, 22), (23, 23), (244, 244), (4096, 4096)],
            4097,
        )?;
        bounds(
            &rt,
            heap,
            &Repetition,
            [(0, 0), (1, 4), (22, 88), (23, 92), (244, 976), (1024, 4096)],
            1025,
        )?;
        bounds(
            &rt,
            heap,
            &Differential,
            [(0, 1), (1, 2), (22, 23), (23, 24), (244, 245), (4095, 4096)],
            4096,
        )
    }

    #[test]
    fn lines(rt: HostRuntime) -> Result<(), Fail> {
        let heap = rt.alloc();
        let standard = [(0, 1), (1, 5), (22, 89), (23, 93), (244, 977), (1023, 4093)];
        let bench = [(0, 0), (1, 4), (22, 88), (23, 92), (244, 976), (1024, 4096)];
        bounds(&rt, heap, &STANDARD, standard, 1024)?;
        bounds(&rt, heap, &BENCH, bench, 1025)?;
        bounds(&rt, heap, &MarkedLine::Standard, standard, 1024)?;
        bounds(&rt, heap, &MarkedLine::Bench, bench, 1025)
    }

    #[test]
    fn no_word_has_no_line_bits_after_differential_coding(rt: HostRuntime) {
        let mut none: [u8; 0] = [];
        assert_eq!(rt;
            Differential.decode(&[], &mut none),
            Err(LineRefusal::WrongLength)
        );
        assert_eq!(rt;
            STANDARD.decode(&[], &mut none),
            Err(LineRefusal::WrongLength)
        );
        assert_eq!(rt; BENCH.decode(&[], &mut none), Ok(()));
    }

    #[test]
    fn scrambling_leaves_22_bits_and_then_adds_0x29da(rt: HostRuntime) {
        let mut out = [1u8; 38];
        assert_eq!(rt; Scrambling.encode(&[0; 38], 0, &mut out), Ok(()));
        assert_eq!(rt;
            out,
            [
                0, 0, 0, 0, 0, 0, 0, 0, 0, 0, 0, 0, 0, 0, 0, 0, 0, 0, 0, 0, 0, 0, 0, 0, 1, 0, 1, 0,
                0, 1, 1, 1, 0, 1, 1, 0, 1, 0,
            ]
        );
    }

    #[test]
    fn a_tie_gives_0(rt: HostRuntime) {
        let mut out = [1u8; 4];
        assert_eq!(rt;
            Repetition.decode(&[1, 1, 1, 0, 1, 1, 0, 0, 1, 0, 0, 0, 1, 1, 1, 0], &mut out),
            Ok(())
        );
        assert_eq!(rt; out, [1, 1, 0, 0]);
    }

    #[test]
    fn the_upper_line_has_the_last_bit_0(rt: HostRuntime) {
        let twice = Cascade {
            upper: Differential,
            lower: Differential,
        };
        let mut out = [0u8; 5];
        assert_eq!(rt; twice.encode(&[1, 1, 0], 1, &mut out), Ok(()));
        assert_eq!(rt; out, [1, 1, 0, 0, 0]);
    }

    #[test]
    fn marks(rt: HostRuntime) {
        for (mark, line) in [
            (0, None),
            (1, Some(MarkedLine::Standard)),
            (2, Some(MarkedLine::Bench)),
            (3, None),
        ] {
            assert_eq!(rt; MarkedLine::from_mark(mark), line);
        }
    }
}
