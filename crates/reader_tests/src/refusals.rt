//! What a reader refuses, and that it goes on afterwards.

use crate::example::{BLOCKS, Told, bare_sender, pass, tell};
use carrier::Reader;
use example_sending::{SIXTEEN_COPIES, SIXTY_FOUR_COPIES};
use line::Line;
use lines::MarkedLine;
use reports::Refusal;
use std::test::Fail;

/// The number that making a reader is refused with.
fn made<L: Line + Drop>(line: L) -> Option<u8> {
    Reader::new(line).err().map(|refusal| refusal.number())
}

/// Hands in blocks of zeros as a whole take, and tells the answer to the last.
fn pass_zeros(reader: &mut Reader<MarkedLine>) -> Told {
    let mut last = Told::Counted;
    for _ in 0..BLOCKS {
        last = tell(reader.receive(&[0; 512]));
    }
    last
}

#[test]
fn a_line_that_does_not_take_frames(rt: HostRuntime) {
    assert_eq!(rt; made(SIXTY_FOUR_COPIES), Some(12));
    assert_eq!(rt; made(SIXTEEN_COPIES), None);
}

#[test]
fn octets_that_are_no_block_are_not_counted(rt: HostRuntime) -> Result<(), Fail> {
    let mut sender = bare_sender(0)?;
    let mut reader = Reader::new(MarkedLine::Bench)?;
    assert_eq!(rt;
        pass(&rt, &mut sender, &mut reader, BLOCKS - 1)?,
        Told::Counted
    );
    assert_eq!(rt; tell(reader.receive(&[0; 511])), Told::Refused(15));
    assert_eq!(rt; tell(reader.receive(&[0; 513])), Told::Refused(15));
    assert_eq!(rt; tell(reader.receive(&[])), Told::Refused(15));
    assert_eq!(rt; pass(&rt, &mut sender, &mut reader, 1)?, Told::Taken);
    assert_eq!(rt; tell(reader.receive(&[0; 513])), Told::Refused(15));
    assert_eq!(rt; pass(&rt, &mut sender, &mut reader, BLOCKS)?, Told::Closed);
    Ok(())
}

#[test]
fn a_reader_goes_on_after_a_take_that_is_no_frame(rt: HostRuntime) -> Result<(), Fail> {
    let mut sender = bare_sender(0)?;
    let mut reader = Reader::new(MarkedLine::Bench)?;
    assert_eq!(rt; pass_zeros(&mut reader), Told::Refused(16));
    assert_eq!(rt; pass(&rt, &mut sender, &mut reader, BLOCKS)?, Told::Taken);
    assert_eq!(rt; pass_zeros(&mut reader), Told::Refused(16));
    assert!(rt; reader.card().is_none());
    assert_eq!(rt; pass(&rt, &mut sender, &mut reader, BLOCKS)?, Told::Taken);
    assert_eq!(rt; pass(&rt, &mut sender, &mut reader, BLOCKS)?, Told::Closed);
    assert_eq!(rt; pass_zeros(&mut reader), Told::Refused(16));
    assert!(rt; reader.card().is_some());
    Ok(())
}

#[test]
fn a_unique_word_that_comes_again(rt: HostRuntime) -> Result<(), Fail> {
    let mut reader = Reader::new(MarkedLine::Bench)?;
    assert_eq!(rt;
        pass(&rt, &mut bare_sender(0)?, &mut reader, BLOCKS)?,
        Told::Taken
    );
    let mut sender = bare_sender(2)?;
    assert_eq!(rt;
        pass(&rt, &mut sender, &mut reader, BLOCKS)?,
        Told::Refused(19)
    );
    assert_eq!(rt;
        pass(&rt, &mut bare_sender(2)?, &mut reader, BLOCKS)?,
        Told::Taken
    );
    assert_eq!(rt; pass(&rt, &mut sender, &mut reader, BLOCKS)?, Told::Closed);
    Ok(())
}

#[test]
fn reset_makes_it_fresh(rt: HostRuntime) -> Result<(), Fail> {
    let mut sender = bare_sender(0)?;
    let mut reader = Reader::new(MarkedLine::Bench)?;
    assert_eq!(rt; pass(&rt, &mut sender, &mut reader, BLOCKS)?, Told::Taken);
    assert_eq!(rt; pass(&rt, &mut sender, &mut reader, BLOCKS)?, Told::Closed);
    assert_eq!(rt; tell(reader.receive(&[0; 512])), Told::Counted);
    reader.reset();
    assert!(rt; reader.card().is_none());
    assert_eq!(rt;
        pass(&rt, &mut bare_sender(1)?, &mut reader, BLOCKS)?,
        Told::Taken
    );
    Ok(())
}
