//! Runs over sources and sinks in memory whose calls fail, and over a source that gives its bytes in pieces.
ghost use Rattle.std.specs.Prelude.{◌<◌, ◌≤◌};

use otap_capture::{MemorySink, MemorySource};
use otap_gateway::*;
use std::alloc::{AllocError, Global};
use std::process::Abort;
use std::test::Fail;

/// A batch with the id 7.
const BATCH: [u8; 7] = [0, 0, 0, 0, 2, 0x08, 0x07];

/// That batch twice.
const TWICE: [u8; 14] = [0, 0, 0, 0, 2, 0x08, 0x07, 0, 0, 0, 0, 2, 0x08, 0x07];

/// The calls that fail, of the source, of out and of err.
#[derive(Clone, Copy)]
struct Failing<'a> {
    source: &'a [u64],
    out: &'a [u64],
    err: &'a [u64],
}

const NONE: Failing<'static> = Failing {
    source: &[],
    out: &[],
    err: &[],
};

/// What a run leaves.
#[derive(Clone, Copy)]
struct Left<'a> {
    out: &'a [u8],
    err: &'a str,
    status: u8,
}

fn words_of(alloc: Global, job: &[&str]) -> Result<Words, AllocError> {
    let mut words = Words::new(alloc);
    for word in job {
        words.push(word)?;
    }
    Ok(words)
}

/// What a run wrote, and its status.
#[derive(Drop)]
struct Ran {
    out: MemorySink,
    err: MemorySink,
    status: u8,
}

/// Runs a job over a capture that comes in pieces of that size.
fn run_job(
    alloc: Global,
    job: &[&str],
    capture: &[u8],
    piece: u32,
    failing: Failing<'_>,
) -> Result<Ran, AllocError>
    requires { 0 < piece }
{
    let words = words_of(alloc, job)?;
    let pieces = vec![in alloc; piece; capture.len()]?;
    let failing_reads = failing.source.to_vec(alloc)?;
    let mut source = MemorySource::new(capture.to_vec(alloc)?, pieces, failing_reads);
    let mut out = MemorySink::new(alloc, failing.out.to_vec(alloc)?);
    let mut err = MemorySink::new(alloc, failing.err.to_vec(alloc)?);
    let status = run(alloc, &words, &mut source, &mut out, &mut err);
    Ok(Ran { out, err, status })
}

/// Runs a job, and compares all that it leaves.
fn runs<R: Abort + AllocGlobal>(
    rt: &R,
    job: &[&str],
    capture: &[u8],
    piece: u32,
    failing: Failing<'_>,
    left: Left<'_>,
) -> Result<(), Fail>
    requires { 0 < piece }
{
    let ran = run_job(rt.alloc(), job, capture, piece, failing)?;
    assert_eq!(rt; ran.out.bytes(), left.out);
    assert_eq!(rt; ran.err.bytes(), left.err.as_bytes());
    assert_eq!(rt; ran.status, left.status);
    Ok(())
}

#[test]
fn failing_calls_and_other_words_have_their_status(rt: HostRuntime) -> Result<(), Fail> {
    let left = |status| Left {
        out: &[],
        err: "",
        status,
    };
    let source = Failing {
        source: &[0],
        ..NONE
    };
    let out = Failing { out: &[0], ..NONE };
    let err = Failing { err: &[0], ..NONE };
    runs(&rt, &["list"], &BATCH, 9, source, left(3))?;
    runs(&rt, &["list"], &BATCH, 9, out, left(4))?;
    runs(&rt, &["list"], &[], 9, out, left(4))?;
    runs(&rt, &["list"], &[], 9, err, left(4))?;
    let refused = Left {
        err: "otap: words not understood\n",
        ..left(2)
    };
    runs(&rt, &["list", "x"], &BATCH, 9, NONE, refused)?;
    runs(&rt, &["list", "logs"], &BATCH, 9, NONE, refused)?;
    runs(&rt, &["tidy"], &BATCH, 9, NONE, refused)?;
    runs(&rt, &["tidy", "x"], &BATCH, 9, NONE, refused)?;
    runs(&rt, &["schema", "x"], &BATCH, 9, NONE, refused)?;
    runs(&rt, &["selfrun", "logs", "0"], &BATCH, 9, NONE, refused)?;
    runs(&rt, &["selfrun", "traces", "01"], &BATCH, 9, NONE, refused)?;
    runs(&rt, &["selfrun", "logs", "1001"], &BATCH, 9, NONE, refused)?;
    runs(&rt, &[], &BATCH, 9, NONE, refused)
}

#[test]
fn frames_are_handled_as_they_come(rt: HostRuntime) -> Result<(), Fail> {
    let line = Left {
        out: b"frame 0: batch 7\n",
        err: "",
        status: 0,
    };
    // The tenth byte doesn't come, and then the seventh.
    let ninth = Failing {
        source: &[9],
        ..NONE
    };
    let first = Left { status: 3, ..line };
    runs(&rt, &["list"], &TWICE, 1, ninth, first)?;
    let sixth = Failing {
        source: &[6],
        ..NONE
    };
    let nothing = Left { out: &[], ..first };
    runs(&rt, &["list"], &TWICE, 1, sixth, nothing)?;
    // What was written for the first frame is passed on before the second is asked for.
    let flush = Failing { out: &[1], ..NONE };
    let unpassed = Left { status: 4, ..line };
    runs(&rt, &["list"], &TWICE, 7, flush, unpassed)?;
    // Both come at once: the second call is the write of the second line.
    runs(&rt, &["list"], &TWICE, 14, flush, unpassed)
}

/// A batch of logs with a record that has an id and nothing else.
const LOGS: [u8; 272] = [
    0, 0, 0, 1, 0x0b, 0x12, 0x88, 2, 0x0a, 1, 0x30, 0x10, 0x1e, 0x1a, 0x80, 2, 0xff, 0xff, 0xff,
    0xff, 0x68, 0, 0, 0, 0x10, 0, 0, 0, 0x0a, 0, 0x0c, 0, 8, 0, 0x0a, 0, 4, 0, 0, 0, 0x0c, 0, 0, 0,
    0x10, 0, 0, 0, 4, 0, 1, 0, 8, 0, 8, 0, 0, 0, 4, 0, 8, 0, 0, 0, 4, 0, 0, 0, 1, 0, 0, 0, 0x10, 0,
    0, 0, 0x0c, 0, 0x10, 0, 4, 0, 0x0d, 0, 0x0c, 0, 8, 0, 0x0c, 0, 0, 0, 0x0c, 0, 0, 0, 0x18, 0, 0,
    0, 2, 1, 0, 0, 2, 0, 0, 0, 0x69, 0x64, 0, 0, 6, 0, 8, 0, 4, 0, 0, 0, 8, 0, 0, 0, 0x10, 0, 0, 0,
    0xff, 0xff, 0xff, 0xff, 0x80, 0, 0, 0, 0x10, 0, 0, 0, 0x0c, 0, 0x14, 0, 0x10, 0, 0x12, 0, 4, 0,
    8, 0, 0x0c, 0, 0, 0, 0x1c, 0, 0, 0, 8, 0, 0, 0, 0, 0, 0, 0, 4, 0, 3, 0, 0x0a, 0, 0x14, 0, 8, 0,
    4, 0, 0x10, 0, 0, 0, 0x0c, 0, 0, 0, 0x10, 0, 0, 0, 1, 0, 0, 0, 0, 0, 0, 0, 0x1c, 0, 0, 0, 1, 0,
    0, 0, 1, 0, 0, 0, 0, 0, 0, 0, 0, 0, 0, 0, 0, 0, 0, 0, 0, 0, 0, 0, 2, 0, 0, 0, 0, 0, 0, 0, 0, 0,
    0, 0, 0, 0, 0, 0, 0, 0, 0, 0, 0, 0, 0, 0, 0, 0, 0, 0, 2, 0, 0, 0, 0, 0, 0, 0, 0, 0, 0, 0, 0, 0,
    0, 0,
];

/// The request that it denotes, and the text of a reset.
const DECODED: [u8; 27] = [
    0, 0, 0, 0, 6, 0x0a, 4, 0x12, 2, 0x12, 0, 2, 0, 0, 0, 0, 0, 0, 0, 0, 6, 0x0a, 4, 0x12, 2, 0x12,
    0,
];

/// A capture of 549 bytes: a batch, a reset, and the batch again.
fn capture(alloc: Global) -> Result<Vec<u8>, AllocError> {
    let mut capture = LOGS.to_vec(alloc)?;
    capture.extend_from_slice(&[2, 0, 0, 0, 0])?;
    capture.extend_from_slice(&LOGS)?;
    Ok(capture)
}

/// A job that runs over this capture.
#[derive(Clone, Copy)]
enum Over {
    List,
    Decode,
}

impl Over {
    fn words(self) -> &'static [&'static str] {
        match self {
            Over::List => &["list"],
            Over::Decode => &["decode", "logs"],
        }
    }

    /// What it writes for the frames that are whole in that number of bytes.
    fn written_in(self, bytes: usize) -> &'static [u8] {
        match self {
            Over::List => match bytes {
                0..272 => b"",
                272..277 => b"frame 0: batch 0 30:256\n",
                277..549 => b"frame 0: batch 0 30:256\nframe 1: reset\n",
                _ => b"frame 0: batch 0 30:256\nframe 1: reset\nframe 2: batch 0 30:256\n",
            },
            Over::Decode => match bytes {
                0..272 => &[],
                272..277 => &DECODED[..11],
                277..549 => &DECODED[..16],
                _ => &DECODED,
            },
        }
    }
}

fn each_failing_read_is_told<R: Abort + AllocGlobal>(rt: &R, job: Over) -> Result<(), Fail> {
    let capture = capture(rt.alloc())?;
    for call in 0..550u64 {
        let failing = Failing {
            source: &[call],
            ..NONE
        };
        let left = Left {
            out: job.written_in(call as usize),
            err: "",
            status: 3,
        };
        runs(rt, job.words(), &capture, 1, failing, left)?;
    }
    Ok(())
}

#[test]
fn each_failing_read_leaves_whole_texts(rt: HostRuntime) -> Result<(), Fail> {
    each_failing_read_is_told(&rt, Over::List)?;
    each_failing_read_is_told(&rt, Over::Decode)
}

fn each_failing_write_is_told<R: Abort + AllocGlobal>(rt: &R, job: Over) -> Result<(), Fail> {
    let capture = capture(rt.alloc())?;
    // In pieces of one byte each text is written and passed on, and all is passed on at the end. All at once the texts are
    // passed on together, before the source says that it is at its end.
    for (call, bytes) in [0, 272, 272, 277, 277, 549, 549].into_iter().enumerate() {
        let failing = Failing {
            out: &[call as u64],
            ..NONE
        };
        let left = Left {
            out: job.written_in(bytes),
            err: "",
            status: 4,
        };
        runs(rt, job.words(), &capture, 1, failing, left)?;
    }
    let left = Left {
        out: job.written_in(549),
        err: "",
        status: 0,
    };
    let failing = Failing { out: &[7], ..NONE };
    runs(rt, job.words(), &capture, 1, failing, left)?;
    let failing = Failing { out: &[5], ..NONE };
    runs(rt, job.words(), &capture, 1 << 16, failing, left)
}

#[test]
fn each_failing_write_leaves_a_front(rt: HostRuntime) -> Result<(), Fail> {
    each_failing_write_is_told(&rt, Over::List)?;
    each_failing_write_is_told(&rt, Over::Decode)
}

/// Runs a job that writes batches, over a capture in pieces of one byte, and decodes what it wrote with `decode logs`, which gives
/// `back`.
fn comes_back<R: Abort + AllocGlobal>(
    rt: &R,
    job: &[&str],
    capture: &[u8],
    failing: Failing<'_>,
    back: &[u8],
    status: u8,
) -> Result<(), Fail> {
    let ran = run_job(rt.alloc(), job, capture, 1, failing)?;
    assert!(rt; ran.err.bytes().is_empty());
    assert_eq!(rt; ran.status, status);
    let left = Left {
        out: back,
        err: "",
        status: 0,
    };
    runs(
        rt,
        &["decode", "logs"],
        ran.out.bytes(),
        1 << 16,
        NONE,
        left,
    )
}

/// Encodes a capture of 27 bytes (a request, a reset, and the request again), and decodes what is written: it is the
/// capture's front of that length.
fn encodes<R: Abort + AllocGlobal>(
    rt: &R,
    failing: Failing<'_>,
    front: usize,
    status: u8,
) -> Result<(), Fail>
    requires { front ≤ 27 }
{
    let back = &DECODED[..front];
    comes_back(rt, &["encode", "logs"], &DECODED, failing, back, status)
}

#[test]
fn each_failing_read_leaves_whole_batches(rt: HostRuntime) -> Result<(), Fail> {
    for call in 0..28u64 {
        let failing = Failing {
            source: &[call],
            ..NONE
        };
        let front = match call {
            0..11 => 0,
            11..16 => 11,
            16..27 => 16,
            _ => 27,
        };
        encodes(&rt, failing, front, 3)?;
    }
    Ok(())
}

#[test]
fn each_failing_write_leaves_whole_batches(rt: HostRuntime) -> Result<(), Fail> {
    // Each batch is written and passed on, and all is passed on at the end.
    for (call, front) in [0, 11, 11, 16, 16, 27, 27].into_iter().enumerate() {
        let failing = Failing {
            out: &[call as u64],
            ..NONE
        };
        assert!(rt; front <= 27);
        encodes(&rt, failing, front, 4)?;
    }
    let failing = Failing { out: &[7], ..NONE };
    encodes(&rt, failing, 27, 0)
}

/// What is read of a batch of which nothing is kept, a reset, and such a batch again: two requests without groups.
const FILTERED: [u8; 15] = [0, 0, 0, 0, 0, 2, 0, 0, 0, 0, 0, 0, 0, 0, 0];

/// Filters the capture of 549 bytes, so that nothing of its batches is kept, and decodes what is written: it is the front of
/// that length.
fn filters<R: Abort + AllocGlobal>(
    rt: &R,
    failing: Failing<'_>,
    front: usize,
    status: u8,
) -> Result<(), Fail>
    requires { front ≤ 15 }
{
    let words = ["filter", "logs", "item", "k", "x"];
    let capture = capture(rt.alloc())?;
    comes_back(rt, &words, &capture, failing, &FILTERED[..front], status)
}

#[test]
fn each_failing_write_leaves_whole_batches_of_what_is_kept(rt: HostRuntime) -> Result<(), Fail> {
    // Each batch is written and passed on, and all is passed on at the end.
    for (call, front) in [0, 5, 5, 10, 10, 15, 15].into_iter().enumerate() {
        let failing = Failing {
            out: &[call as u64],
            ..NONE
        };
        assert!(rt; front <= 15);
        filters(&rt, failing, front, 4)?;
    }
    let failing = Failing { out: &[7], ..NONE };
    filters(&rt, failing, 15, 0)
}

/// A capture of 26 bytes: two requests without groups as events, a reset, and a status that accepts the first of them.
const EVENTS: [u8; 26] = [
    0, 0, 0, 0, 2, 0x0a, 0, 0, 0, 0, 0, 2, 0x0a, 0, 2, 0, 0, 0, 0, 0, 0, 0, 0, 2, 0x12, 0,
];

/// The requests that are written for it, as frames: both, and after a reset both again.
const RESENT: [u8; 25] = [
    0, 0, 0, 0, 0, 0, 0, 0, 0, 0, 2, 0, 0, 0, 0, 0, 0, 0, 0, 0, 0, 0, 0, 0, 0,
];

/// What is said of the status, and then at the end.
const ANSWERED: &str = "frame 3: answer 0 done\n";

const SENT: &str = "frame 3: answer 0 done\nsent 2 done 1 given up 0 open 1\n";

/// Resends over these events in pieces of one byte, and decodes what is written as far as it is whole: it is the front of that
/// length.
fn resends<R: Abort + AllocGlobal>(
    rt: &R,
    failing: Failing<'_>,
    front: usize,
    err: &str,
    status: u8,
) -> Result<(), Fail>
    requires { front ≤ 25 }
{
    let alloc = rt.alloc();
    let ran = run_job(alloc, &["resend", "logs", "2"], &EVENTS, 1, failing)?;
    assert_eq!(rt; ran.err.bytes(), err.as_bytes());
    assert_eq!(rt; ran.status, status);
    let read = run_job(alloc, &["decode", "logs"], ran.out.bytes(), 1 << 16, NONE)?;
    assert_eq!(rt; read.out.bytes(), &RESENT[..front]);
    Ok(())
}

#[test]
fn each_failing_read_leaves_no_last_line(rt: HostRuntime) -> Result<(), Fail> {
    for call in 0..27u64 {
        let failing = Failing {
            source: &[call],
            ..NONE
        };
        let front = match call {
            0..7 => 0,
            7..14 => 5,
            14..19 => 10,
            _ => 25,
        };
        let err = if call == 26 { ANSWERED } else { "" };
        resends(&rt, failing, front, err, 3)?;
    }
    Ok(())
}

#[test]
fn each_failing_write_leaves_a_front_of_what_is_resent(rt: HostRuntime) -> Result<(), Fail> {
    // Each batch is written and passed on. After the reset the head and the message of each batch are written, and all of it
    // is passed on together; then nothing is written on out, but it is passed on, and once more at the end.
    for (call, front) in [0, 5, 5, 10, 10, 15, 15, 20, 20, 25, 25, 25]
        .into_iter()
        .enumerate()
    {
        let failing = Failing {
            out: &[call as u64],
            ..NONE
        };
        let err = match call {
            0..10 => "",
            10 => ANSWERED,
            _ => SENT,
        };
        assert!(rt; front <= 25);
        resends(&rt, failing, front, err, 4)?;
    }
    let failing = Failing { out: &[12], ..NONE };
    resends(&rt, failing, 25, SENT, 0)
}

#[test]
fn the_last_line_comes_after_all_replies(rt: HostRuntime) -> Result<(), Fail> {
    // What was written is passed on three times; then come the line of the status, and the last line.
    for (call, front) in [5, 10, 25, 25, 25, 25, 25].into_iter().enumerate() {
        let failing = Failing {
            err: &[call as u64],
            ..NONE
        };
        let err = match call {
            0..4 => "",
            4..6 => ANSWERED,
            _ => SENT,
        };
        assert!(rt; front <= 25);
        resends(&rt, failing, front, err, 4)?;
    }
    let failing = Failing { err: &[7], ..NONE };
    resends(&rt, failing, 25, SENT, 0)
}
