//! Sources and sinks over readers and writers of std.
use sms_base::{Failed, ReadEnd, Sink, Source, StdSink, StdSource, read_all, write_all};
use std::alloc::Global;
use std::io::{Cursor, Error, ErrorKind, Read};
use std::test::Fail;

const TEXT: &[u8; 12] = b"SYS1.PARMLIB";

/// A reader whose every read fails.
#[derive(Drop)]
struct BrokenReader;

impl Read for BrokenReader {
    fn read(&mut self, _: &mut [u8]) -> std::io::Result<usize> {
        Err(Error::from(ErrorKind::Interrupted))
    }
}

/// Whether a text of 120,000 bytes is read whole, with its length as the limit.
fn is_read(alloc: Global, text: &[u8]) -> Result<bool, Fail> {
    let mut source = StdSource::new(text);
    Ok(read_all(alloc, &mut source, text.len())?.as_slice() == text)
}

/// Whether reads of a reader that fails are told as failed.
fn is_failed(alloc: Global) -> bool {
    let mut broken = StdSource::new(BrokenReader);
    let is_told = broken.read(&mut [0; 4]) == Err(Failed);
    let end = read_all(alloc, &mut broken, 12).err();
    is_told && end == Some(ReadEnd::Failed)
}

#[test]
fn a_real_reader_is_read_to_its_end_or_its_error(rt: HostRuntime) -> Result<(), Fail> {
    let text = TEXT.repeat(rt.alloc(), 10_000)?;
    assert!(rt; is_read(rt.alloc(), &text)? && is_failed(rt.alloc()));
    Ok(())
}

/// Whether a text is written whole.
fn is_written(alloc: Global, text: &[u8]) -> bool {
    let mut device = Vec::new(alloc);
    let mut sink = StdSink::new(&mut device);
    let is_whole = write_all(&mut sink, text) == Ok(());
    let is_there = device.as_slice() == text;
    is_whole && is_there
}

/// Whether a writer with room for five bytes is told to have failed, and takes nothing more.
fn is_full() -> bool {
    let mut full = StdSink::new(Cursor::new([0u8; 5]));
    write_all(&mut full, TEXT) == Err(Failed) && full.write(b"") == Ok(0)
}

#[test]
fn a_real_writer_gets_all_bytes_or_takes_nothing(rt: HostRuntime) -> Result<(), Fail> {
    let text = TEXT.repeat(rt.alloc(), 10_000)?;
    assert!(rt; is_written(rt.alloc(), &text) && is_full());
    Ok(())
}
