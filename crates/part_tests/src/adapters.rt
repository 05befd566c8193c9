//! Links and doors over real streams: what goes through them, and that each fault is told and counted.
use sms_base::{Accept, Failed, Sink, Source, StdLink, TcpAccept, read_all, write_all};
use std::io::{Cursor, Error, ErrorKind, Read, Write};
use std::net::{Ipv4Addr, Shutdown, TcpListener, TcpStream};
use std::test::Fail;

const TEXT: &[u8; 12] = b"SYS1.PARMLIB";

/// A reader whose every read fails.
#[derive(Drop)]
struct BrokenReader;

impl Read for BrokenReader {
    fn read(&mut self, _: &mut [u8]) -> std::io::Result<usize> {
        Err(Error::from(ErrorKind::Interrupted))
    }
}

/// Whether a stream with room for five bytes is told to have taken five, and then to have failed.
fn takes_five() -> bool {
    let mut link = StdLink::new(Cursor::new([0u8; 5]));
    let is_short = link.write(TEXT) == Ok(5) && !link.has_failed();
    is_short && link.write(TEXT) == Err(Failed) && link.has_failed() && link.write(b"") == Ok(0)
}

/// Whether a read that fails is no end of the input.
fn fails_reading() -> bool {
    let mut link = StdLink::new(BrokenReader);
    !link.has_failed() && link.read(&mut [0; 4]) == Err(Failed) && link.has_failed()
}

#[test]
fn a_real_link_tells_its_faults(rt: HostRuntime) -> Result<(), Fail> {
    assert!(rt; takes_five() && fails_reading());
    Ok(())
}

/// Whether the text goes both ways between a client of the listener and the link that its door gives.
fn goes_both_ways(
    rt: &HostRuntime,
    listener: &TcpListener,
    door: &mut TcpAccept<'_, TcpListener>,
) -> Result<bool, Fail> {
    let mut client = TcpStream::connect(rt, listener.local_addr()?)?;
    client.write_all(TEXT)?;
    client.shutdown(Shutdown::Write)?;
    let Ok(Some(mut link)) = door.accept() else {
        return Ok(false);
    };
    let came = read_all(rt.alloc(), &mut link, 99)?;
    let is_taken = write_all(&mut link, TEXT).is_ok();
    door.done(link);
    let sent = read_all(rt.alloc(), &mut StdLink::new(client), 99)?;
    Ok(is_taken && came.as_slice() == TEXT.as_slice() && sent.as_slice() == TEXT.as_slice())
}

#[test]
fn a_real_door_gives_each_link_and_tells_its_fault(rt: HostRuntime) -> Result<(), Fail> {
    let listener = TcpListener::bind(&rt, (Ipv4Addr::LOCALHOST, 0))?;
    let mut door = TcpAccept::new(&listener);
    for _ in 0..2 {
        assert!(rt; goes_both_ways(&rt, &listener, &mut door)?);
    }
    listener.set_nonblocking(true)?;
    assert!(rt; door.accept().is_err());
    Ok(())
}
