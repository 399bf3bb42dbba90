//! What no contract says: that calls succeed with memory at hand, and how the pieces play together.
use otap_capture::*;
use std::io::{Error, ErrorKind, Write};
use std::test::Fail;

/// A batch with the id 7.
const BATCH: [u8; 2] = [0x08, 0x07];

#[test]
fn frames_go_on_after_a_failing_read(rt: HostRuntime) -> Result<(), Fail> {
    let alloc = rt.alloc();
    let bytes = [0, 0, 0, 0, 2, 0x08, 0x07, 1, 0, 0, 0, 0, 2, 0, 0, 0, 0, 9].to_vec(alloc)?;
    let mut source = MemorySource::new(bytes, vec![in alloc; 1; 40]?, [3].to_vec(alloc)?);
    let mut frames = Frames::new(alloc);
    assert!(rt; matches!(frames.next(&mut source), Err(FramesRefusal::Source)));
    assert!(rt; frames.frame().is_none());
    assert!(rt; frames.asks());
    assert_eq!(rt; frames.next(&mut source)?, Step::Frame);
    assert_eq!(rt; frames.frame(), Some(Frame::Message(&BATCH)));
    assert_eq!(rt; frames.next(&mut source)?, Step::Frame);
    assert_eq!(rt; frames.frame(), Some(Frame::Packed));
    assert_eq!(rt; frames.next(&mut source)?, Step::Frame);
    assert_eq!(rt; frames.frame(), Some(Frame::Reset));
    let end = Step::Damage(Damage {
        at: 17,
        why: Why::Truncated,
    });
    assert_eq!(rt; frames.next(&mut source)?, end);
    assert_eq!(rt; frames.next(&mut source)?, end);
    assert!(rt; frames.frame().is_none());
    assert!(rt; !frames.asks());
    Ok(())
}

#[test]
fn frames_come_before_the_source_ends(rt: HostRuntime) -> Result<(), Fail> {
    let alloc = rt.alloc();
    let bytes = [0, 0, 0, 0, 2, 0x08, 0x07, 2, 0, 0, 0, 0].to_vec(alloc)?;
    // The third read would fail.
    let mut source = MemorySource::new(bytes, [7, 5].to_vec(alloc)?, [2].to_vec(alloc)?);
    let mut frames = Frames::new(alloc);
    assert_eq!(rt; frames.next(&mut source)?, Step::Frame);
    assert_eq!(rt; frames.frame(), Some(Frame::Message(&BATCH)));
    assert_eq!(rt; frames.next(&mut source)?, Step::Frame);
    assert_eq!(rt; frames.frame(), Some(Frame::Reset));
    assert!(rt; matches!(frames.next(&mut source), Err(FramesRefusal::Source)));
    assert_eq!(rt; frames.next(&mut source)?, Step::End);
    Ok(())
}

#[test]
fn frames_are_written(rt: HostRuntime) -> Result<(), Fail> {
    let alloc = rt.alloc();
    let mut sink = MemorySink::new(alloc, [3].to_vec(alloc)?);
    write_frame(&mut sink, &BATCH)?;
    write_reset(&mut sink)?;
    assert_eq!(rt;
        sink.bytes(),
        [0, 0, 0, 0, 2, 0x08, 0x07, 2, 0, 0, 0, 0].as_slice()
    );
    assert!(rt; matches!(write_reset(&mut sink), Err(SinkRefusal::Failed)));
    let mut steady = SteadySink::new(alloc);
    write_frame(&mut steady, &[])?;
    steady.flush()?;
    assert_eq!(rt; steady.bytes(), [0, 0, 0, 0, 0].as_slice());
    Ok(())
}

/// Takes all that is written, and can't pass it on.
#[derive(Drop)]
struct Full;

impl Write for Full {
    fn write(&mut self, part: &[u8]) -> std::io::Result<usize> {
        Ok(part.len())
    }

    fn flush(&mut self) -> std::io::Result<()> {
        Err(Error::from(ErrorKind::StorageFull))
    }
}

#[test]
fn a_flush_that_fails_is_a_fault(rt: HostRuntime) -> Result<(), Fail> {
    let mut sink = WriteSink::new(Full);
    write_reset(&mut sink)?;
    assert!(rt; matches!(sink.flush(), Err(SinkRefusal::Failed)));
    Ok(())
}
