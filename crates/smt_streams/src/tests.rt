//! Sources and sinks that move little, fail or are interrupted. Contracts say what a failed call leaves;
//! these tests say that a call fails only where its reader or writer does.

ghost use Rattle.std.specs.Prelude.{◌≡◌, ◌≤◌, false, IfOk};
ghost use Rattle.smt_streams.specs.Collected.{collected_broken};

use crate::{Broken, Collected, Device, Pieces, Sink, Source, put_all};
use std::io;
use std::io::{ErrorKind, Read, Write};

// What a call of a scripted reader or writer does.
#[derive(Clone, Copy)]
enum Call {
    One,
    Nothing,
    Interrupt,
    Fail,
}

// A reader and writer whose calls follow a script, and move nothing after its end.
#[derive(Drop)]
struct Scripted<'a> {
    calls: &'a [Call],
}

impl Scripted<'_> {
    // How many bytes the next call moves.
    fn moves(&mut self) -> io::Result<usize>
        ensures { IfOk result (λ n. n ≤ 1) }
    {
        let Some((call, later)) = self.calls.split_first() else {
            return Ok(0);
        };
        self.calls = later;
        match call {
            Call::One => Ok(1),
            Call::Nothing => Ok(0),
            Call::Interrupt => Err(io::Error::from(ErrorKind::Interrupted)),
            Call::Fail => Err(io::Error::from(ErrorKind::BrokenPipe)),
        }
    }
}

// Each byte that it gives is `a`.
impl Read for Scripted<'_> {
    fn read(&mut self, buf: &mut [u8]) -> io::Result<usize> {
        if buf.is_empty() {
            return Ok(0);
        }
        buf[0] = b'a';
        self.moves()
    }
}

impl Write for Scripted<'_> {
    fn write(&mut self, buf: &[u8]) -> io::Result<usize> {
        if buf.is_empty() {
            return Ok(0);
        }
        self.moves()
    }

    fn flush(&mut self) -> io::Result<()> {
        Ok(())
    }
}

// Pours a source into a sink, and returns the number of pulls.
fn pour<S: Source>(source: &mut S, sink: &mut Collected) -> Result<usize, Broken>
    requires source { S.is_broken source.old ≡ false }
    requires open { S.has_ended source.old ≡ false }
    requires sink { collected_broken sink.old ≡ false }
{
    let mut buf = [0u8; 4];
    for pulls in 1..20 {
        let count = source.pull(&mut buf)?;
        if count == 0 {
            return Ok(pulls);
        }
        put_all(sink, &buf[..count])?;
    }
    Err(Broken)
}

#[test]
fn a_source_gives_one_byte_a_call(rt: HostRuntime) {
    let mut sink = Collected::new(rt.alloc(), 4);
    let mut source = Pieces::new(b"(a)", 1);
    assert_eq!(rt; pour(&mut source, &mut sink), Ok(4));
    assert_eq!(rt; sink.bytes(), b"(a)".as_slice());
}

#[test]
fn a_device_gives_all_that_its_reader_has(rt: HostRuntime) {
    let mut sink = Collected::new(rt.alloc(), 1);
    let mut source = Device::new(&b"(exit)"[..]);
    assert_eq!(rt; pour(&mut source, &mut sink), Ok(3));
    assert_eq!(rt; sink.bytes(), b"(exit)".as_slice());
    assert!(rt; !Source::broken(&source));
}

#[test]
fn a_device_fails_where_its_reader_does(rt: HostRuntime) {
    let mut sink = Collected::new(rt.alloc(), 4);
    let calls = [Call::One, Call::Interrupt, Call::One, Call::Fail, Call::One];
    let mut source = Device::new(Scripted { calls: &calls });
    assert_eq!(rt; pour(&mut source, &mut sink), Err(Broken));
    assert_eq!(rt; sink.bytes(), b"aa".as_slice());
    assert!(rt; Source::broken(&source));
}

#[test]
fn a_device_takes_one_byte_a_call(rt: HostRuntime) {
    let calls = [Call::One, Call::Interrupt, Call::One];
    let mut sink = Device::new(Scripted { calls: &calls });
    assert_eq!(rt; put_all(&mut sink, b"ok"), Ok(()));
    assert!(rt; !Sink::broken(&sink));
}

#[test]
fn a_device_whose_writer_takes_none_has_failed(rt: HostRuntime) {
    let calls = [Call::One, Call::Nothing, Call::One];
    let mut sink = Device::new(Scripted { calls: &calls });
    assert_eq!(rt; put_all(&mut sink, b"ok"), Err(Broken));
    assert!(rt; Sink::broken(&sink));
}

#[test]
fn a_device_takes_all_that_its_writer_takes(rt: HostRuntime) {
    let mut bytes = Vec::new(rt.alloc());
    let mut sink = Device::new(&mut bytes);
    assert_eq!(rt; sink.put(b"verdict: valid"), Ok(14));
    assert_eq!(rt; bytes.as_slice(), b"verdict: valid".as_slice());
}
