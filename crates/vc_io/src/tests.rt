use crate::{MemSink, MemSource, Sink, Source, StdSink, StdSource, write_whole};
use std::cell::Cell;
use std::io::{self, Cursor, ErrorKind, Read, Write};
use std::test::Fail;

#[test]
fn the_objects_in_memory_fail_where_they_are_told(rt: HostRuntime) -> Result<(), Fail> {
    let listed = vec![in rt.alloc(); 1u64]?;
    let mut source = MemSource::make(vec![in rt.alloc(); b'a', b'b', b'c']?, 2, listed);
    let mut buf = [0u8; 8];
    assert_eq!(rt; source.read(&mut buf).ok(), Some(2));
    assert!(rt; source.read(&mut buf).is_err());
    assert_eq!(rt; source.read(&mut buf).ok(), Some(1));
    assert_eq!(rt; buf[0], b'c');
    assert_eq!(rt; source.read(&mut buf).ok(), Some(0));

    let listed = vec![in rt.alloc(); 0u64]?;
    let mut sink = MemSink::make(rt.alloc(), 3, 2, listed)?;
    assert!(rt; write_whole(&mut sink, b"x").is_err());
    assert!(rt; write_whole(&mut sink, b"abc").is_ok());
    assert!(rt; write_whole(&mut sink, b"d").is_err());
    assert_eq!(rt; sink.write(b"").ok(), Some(0));
    assert!(rt; sink.flush().is_ok());
    assert_eq!(rt; sink.into_bytes().as_slice(), b"abc".as_slice());
    Ok(())
}

#[test]
fn readers_and_writers_are_adapted(rt: HostRuntime) {
    let mut source = StdSource::new(Cursor::new([1u8, 2, 3]));
    let mut buf = [0u8; 2];
    assert_eq!(rt; source.read(&mut buf).ok(), Some(2));
    assert_eq!(rt; source.read(&mut buf).ok(), Some(1));
    assert_eq!(rt; source.read(&mut buf).ok(), Some(0));
    let mut sink = StdSink::new(Cursor::new([0u8; 2]));
    assert!(rt; write_whole(&mut sink, b"ab").is_ok());
    assert!(rt; write_whole(&mut sink, b"c").is_err());
    assert!(rt; sink.flush().is_ok());
}

/// A reader and a writer that counts its calls, of which each one with an odd number fails.
#[derive(Drop)]
struct Counting<'a> {
    calls: &'a Cell<u64>,
}

impl<'a> Counting<'a> {
    fn call(&mut self) -> io::Result<()> {
        let call = self.calls.get();
        self.calls.set(call.saturating_add(1));
        if call % 2 == 1 {
            return Err(io::Error::from(ErrorKind::Interrupted));
        }
        Ok(())
    }
}

impl<'a> Read for Counting<'a> {
    fn read(&mut self, buf: &mut [u8]) -> io::Result<usize> {
        self.call()?;
        Ok(buf.len().min(1))
    }
}

impl<'a> Write for Counting<'a> {
    fn write(&mut self, buf: &[u8]) -> io::Result<usize> {
        self.call()?;
        Ok(buf.len().min(1))
    }

    fn flush(&mut self) -> io::Result<()> {
        self.call()
    }
}

#[test]
fn an_adapter_makes_one_call_for_each_of_its_own(rt: HostRuntime) {
    let calls = Cell::new(0);
    let mut source = StdSource::new(Counting { calls: &calls });
    let mut buf = [0u8; 2];
    assert_eq!(rt; source.read(&mut buf).ok(), Some(1));
    assert_eq!(rt; calls.get(), 1);
    assert!(rt; source.read(&mut buf).is_err());
    assert_eq!(rt; calls.get(), 2);
    let mut sink = StdSink::new(Counting { calls: &calls });
    assert_eq!(rt; sink.write(b"ab").ok(), Some(1));
    assert_eq!(rt; calls.get(), 3);
    assert!(rt; sink.write(b"b").is_err());
    assert_eq!(rt; calls.get(), 4);
    assert!(rt; sink.flush().is_ok());
    assert_eq!(rt; calls.get(), 5);
    assert!(rt; sink.flush().is_err());
    assert_eq!(rt; calls.get(), 6);
}
