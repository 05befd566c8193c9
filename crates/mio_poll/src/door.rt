//! A listener and the streams that came through it.
ghost use Rattle.std.specs.Prelude.{◌≡◌, false, IfSome, None};
ghost use Rattle.desk_common.specs.Causes.{HasCause};
ghost use Rattle.ready_wires.specs.Wires.{no_marks, no_watch};

use crate::wire::TcpWire;
use mio::net::TcpListener;
use mio::{Events, Interest, Poll, Token};
use ready_wires::{Event, Readiness};
use sms_base::Failed;
use std::alloc::Global;
use std::io;
use std::io::Read;
use std::net::{Net, Shutdown, SocketAddr};
use std::rt::Clock;
use std::time::{Duration, Instant};

// The token of the listener; no key is so great.
const LISTENER: Token = Token(usize::MAX);

// So many events are taken from the system at once.
const BATCH: usize = 256;

// So many bytes are read at once of a connection that is closed, and so often.
const PIECE: usize = 4_096;

const LAST_PIECES: u32 = 16;

// So long the system is waited for at once.
const WAIT_SECONDS: u64 = 1;

/// A listener and the streams that came through it. A stream at which nothing happened for `patience` is told of as
/// idle.
#[derive(Drop)]
pub struct PollDoor<'a, R> {
    rt: &'a R,
    patience: Duration,
    poll: Poll,
    listener: TcpListener,
    events: Events,
    // How many events of the last batch were told.
    told: usize,
    // Whether connections may wait at the listener.
    accepting: bool,
    // When something happened last at each key that is watched.
    active: Vec<Option<Instant>>,
    // The next key that may be idle; none while no look at them is under way.
    looking: Option<usize>,
    faults: u64,
}

impl<'a, R: Net + Clock> PollDoor<'a, R> {
    /// A door at this address, with room for so many keys.
    pub fn bind(
        alloc: Global,
        rt: &'a R,
        address: SocketAddr,
        most: usize,
        patience: Duration,
    ) -> io::Result<Self> {
        let poll = Poll::new(rt)?;
        let mut listener = TcpListener::bind(rt, address)?;
        poll.registry()
            .register(&mut listener, LISTENER, Interest::READABLE)?;
        Ok(PollDoor {
            rt,
            patience,
            poll,
            listener,
            events: Events::with_capacity(alloc, BATCH)?,
            told: 0,
            accepting: true,
            active: Vec::from_elem(alloc, None, most)?,
            looking: None,
            faults: 0,
        })
    }

    // The next connection that waits at the listener. Where asking fails, as for want of descriptors, it is asked again
    // when a connection leaves or the wait is over.
    fn accept(&mut self) -> Option<TcpWire>
        ensures marks { IfSome result (λ wire. wire.marks ≡ no_marks) }
        ensures watch { IfSome result (λ wire. wire.watch ≡ no_watch) }
        ensures faults { self.new.faults ≡ self.old.faults }
    {
        match self.listener.accept() {
            Ok((stream, _)) => {
                let _ = stream.set_nodelay(true);
                Some(TcpWire::new(stream))
            }
            Err(_) => {
                self.accepting = false;
                None
            }
        }
    }

    // Something happened at this key.
    fn touch(&mut self, key: usize)
        ensures { self.new.faults ≡ self.old.faults }
    {
        if key < self.active.len() {
            self.active[key] = Instant::now(self.rt).ok();
        }
    }

    // The next key at which nothing happened for too long, of those that are still to be looked at.
    fn next_idle(&mut self, from: usize) -> Option<usize>
        ensures { self.new.faults ≡ self.old.faults }
    {
        let now = Instant::now(self.rt).ok()?;
        let mut key = from;
        while key < self.active.len() {
            if is_past(self.active[key], now, self.patience) {
                self.active[key] = None;
                self.looking = Some(key);
                return Some(key);
            }
            key += 1;
        }
        None
    }

    // Waits for the system's next events, once.
    fn wait(&mut self) -> Result<(), Failed>
        ensures { HasCause self.old.faults self.new.faults result }
    {
        self.told = 0;
        let most = Some(Duration::from_secs(WAIT_SECONDS));
        if self.poll.poll(&mut self.events, most).is_err() {
            self.faults = self.faults.saturating_add(1);
            return Err(Failed);
        }
        self.looking = Some(0);
        self.accepting = true;
        Ok(())
    }
}

// Whether something happened, and too long ago.
fn is_past(last: Option<Instant>, now: Instant, patience: Duration) -> bool {
    match last {
        Some(last) => now.saturating_duration_since(last) > patience,
        None => false,
    }
}

// Says that nothing more is sent, and reads what came unread, at most so much: a stream that is closed with unread
// bytes is reset, and what was sent last may be lost by that.
fn close(conn: TcpWire) {
    let mut stream = conn.stream;
    if stream.shutdown(Shutdown::Write).is_err() {
        return;
    }
    let mut piece = [0; PIECE];
    for _ in 0..LAST_PIECES {
        match stream.read(&mut piece) {
            Ok(0) => return,
            Ok(_) => {}
            Err(_) => return,
        }
    }
}

impl<'a, R: Net + Clock> Readiness for PollDoor<'a, R> {
    type Conn = TcpWire;

    ghost seen = { λ d. record {
      calls = None;
      came = None;
      idle = None;
      awaited = None;
      ended = false;
      faults = d.faults;
    } };

    ghost back = { λ d. None };

    fn next(&mut self) -> Result<Event<TcpWire>, Failed> {
        if self.accepting {
            if let Some(conn) = self.accept() {
                return Ok(Event::Came(conn));
            }
        }
        if let Some(from) = self.looking.take() {
            if let Some(key) = self.next_idle(from) {
                return Ok(Event::Idle(key));
            }
        }
        let Some(event) = self.events.iter().nth(self.told).map(|event| event.token()) else {
            return match self.wait() {
                Ok(()) => Ok(Event::Quiet),
                Err(error) => Err(error),
            };
        };
        self.told += 1;
        if event == LISTENER {
            self.accepting = true;
            return Ok(Event::Quiet);
        }
        self.touch(event.0);
        Ok(Event::Ready(event.0))
    }

    fn watch(&mut self, conn: &mut TcpWire, key: usize) -> Result<(), Failed> {
        let both = Interest::READABLE | Interest::WRITABLE;
        let registry = self.poll.registry();
        let watched = match conn.watch.key {
            Some(_) => registry.reregister(&mut conn.stream, Token(key), both),
            None => registry.register(&mut conn.stream, Token(key), both),
        };
        if watched.is_err() {
            self.faults = self.faults.saturating_add(1);
            conn.watch.failed = true;
            return Err(Failed);
        }
        conn.watch.begin(key, None, conn.marks.moved);
        conn.marks.forget();
        self.touch(key);
        Ok(())
    }

    // The system tells each change of a stream that it watches.
    fn rest(&mut self, conn: &mut TcpWire, _key: usize) {
        conn.watch.rest(conn.marks.tried);
        conn.marks.forget();
    }

    fn done(&mut self, conn: TcpWire) {
        if let Some(key) = conn.watch.key {
            if key < self.active.len() {
                self.active[key] = None;
            }
        }
        close(conn);
        self.accepting = true;
    }
}
