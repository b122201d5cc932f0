//! Reels: recorded takes, behind a header of four numbers.

#![tactic(auto)]

mod header;
mod number;
mod refusal;

pub use header::Header;
pub use refusal::ReelRefusal;

#[cfg(test)]
mod tests {
    use super::*;
    use lines::MarkedLine;
    use reports::Refusal;

    fn header(accession: u32, line: MarkedLine, takes: u32, len: usize) -> Header {
        Header {
            accession,
            line,
            takes,
            len,
        }
    }

    #[test]
    fn headers_are_read(rt: HostRuntime) {
        let rows: [(&[u8], Header); 5] = [
            (&[1, 12, 1, 6], header(12, MarkedLine::Standard, 6, 4)),
            (&[1, 0, 1, 0], header(0, MarkedLine::Standard, 0, 4)),
            (&[1, 127, 2, 127, 9], header(127, MarkedLine::Bench, 127, 4)),
            (
                &[1, 0x80, 1, 2, 3, 0x80],
                header(128, MarkedLine::Bench, 3, 5),
            ),
            (
                &[1, 0xFF, 0xFF, 0x7F, 1, 1],
                header(2_097_151, MarkedLine::Standard, 1, 6),
            ),
        ];
        for (octets, header) in rows {
            assert_eq!(rt; Header::read(octets), Ok(header));
        }
    }

    #[test]
    fn numbers_are_refused(rt: HostRuntime) {
        let rows: [&[u8]; 20] = [
            &[],
            &[0x81],
            &[0x81, 0],
            &[0x80, 0],
            &[0x80, 1],
            &[1],
            &[1, 0x80],
            &[1, 0x80, 0x80],
            &[1, 0x8C, 0, 1, 6],
            &[1, 0x8C, 0x80, 0, 1, 6],
            &[1, 0x80, 0x80, 0x80, 1, 1, 6],
            &[1, 0xFF, 0xFF, 0xFF, 0xFF, 0xFF, 0xFF, 0xFF, 0xFF, 0xFF, 1],
            &[1, 12],
            &[1, 12, 0x81],
            &[1, 12, 0x81, 0, 6],
            &[1, 12, 0x80, 1, 6],
            &[1, 12, 1],
            &[1, 12, 1, 0x86],
            &[1, 12, 1, 0x86, 0],
            &[1, 12, 1, 0x80, 1],
        ];
        for octets in rows {
            assert_eq!(rt;
                Header::read(octets).err().map(|refusal| refusal.number()),
                Some(24)
            );
        }
    }

    #[test]
    fn unknown_forms_and_marks_are_refused(rt: HostRuntime) {
        let rows: [&[u8]; 7] = [
            &[0],
            &[2],
            &[127, 12, 1, 6],
            &[2, 0x80],
            &[1, 12, 0],
            &[1, 12, 3, 6],
            &[1, 12, 127, 0x86],
        ];
        for octets in rows {
            assert_eq!(rt;
                Header::read(octets).err().map(|refusal| refusal.number()),
                Some(25)
            );
        }
    }
}
