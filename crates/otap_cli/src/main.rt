//! The OTAP gateway as a program: it reads a capture on standard input, writes on standard output, and
//! says what it refuses on standard error. Its words name the job.
#![tactic(auto)]

use otap_capture::{ReadSource, WriteSink};
use otap_gateway::{Words, run};
use std::alloc::{AllocError, Global};
use std::env;
use std::env::Env;
use std::io::{BufWriter, ErrorKind};
use std::process::ExitCode;

/// How many bytes are buffered for standard output, and for standard error.
const BUFFER: usize = 1 << 16;

/// The status where there is no memory to begin with.
const NO_MEMORY: u8 = 6;

/// How many bytes are asked for and given back at the start, so that freed memory is kept: a little less than 32 MiB, above which
/// the C library no longer learns from it.
const FIRST_ROOM: usize = 31 << 20;

fn main(rt: HostRuntime) -> ExitCode {
    ExitCode::from(start(&rt).unwrap_or(NO_MEMORY))
}

fn start(rt: &HostRuntime) -> Result<u8, AllocError> {
    let alloc = rt.alloc();
    keep_freed_room(alloc);
    let words = words(rt)?;
    let mut source = ReadSource::new(rt.stdin());
    let out = BufWriter::with_capacity(alloc, BUFFER, rt.stdout()).map_err(|_| AllocError)?;
    let err = BufWriter::with_capacity(alloc, BUFFER, rt.stderr()).map_err(|_| AllocError)?;
    let (mut out, mut err) = (WriteSink::new(out), WriteSink::new(err));
    Ok(run(alloc, &words, &mut source, &mut out, &mut err))
}

/// Has the C library keep room that is freed, for what is asked for later. Otherwise each request's room goes back to the
/// operating system, and comes again page by page. It keeps up to twice the largest room that was given back, of up to 32 MiB
/// (mallopt(3), M_MMAP_THRESHOLD). No page of the room that is asked for here is touched, and nothing depends on getting it.
fn keep_freed_room(alloc: Global) {
    let _room = Vec::<u8>::with_capacity(alloc, FIRST_ROOM);
}

/// The arguments after the program's name; none where one of them isn't UTF-8.
fn words(rt: &(impl Env + AllocGlobal)) -> Result<Words, AllocError> {
    let mut words = Words::new(rt.alloc());
    match env::args(rt) {
        Ok(arguments) => {
            for argument in arguments.skip(1) {
                words.push(argument.as_str())?;
            }
        }
        Err(error) if error.kind() == ErrorKind::OutOfMemory => return Err(AllocError),
        Err(_) => {}
    }
    Ok(words)
}
