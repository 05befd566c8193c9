//! Who tells when connections are ready, and says of each that ends what it was.
ghost use Rattle.std.specs.Prelude.{◌≡◌, None};

use crate::counted_wire::CountedWire;
use ready_wires::{Event, Readiness};
use sms_base::Failed;

/// The readiness of a door, which says on standard error of each connection that ends how many bytes came of it and
/// were sent to it, and with which status it was answered last (docs/manual/smsd.md, "Serving"). Contracts see the door.
#[derive(Drop)]
pub struct LoggedDoor<'a, D> {
    rt: &'a HostRuntime,
    door: D,
    // How many connections ended.
    ended: u64,
}

impl<'a, D> LoggedDoor<'a, D> {
    /// The readiness of this door.
    pub fn new(rt: &'a HostRuntime, door: D) -> Self
        ensures { result.door ≡ door }
    {
        LoggedDoor { rt, door, ended: 0 }
    }

    // Says what a connection was that ends.
    fn tell<W>(&mut self, conn: &CountedWire<W>)
        ensures { self.new.door ≡ self.old.door }
    {
        self.ended = self.ended.saturating_add(1);
        let (number, came, sent) = (self.ended, conn.came(), conn.sent());
        let _ = match conn.status() {
            Some(status) => eprintln!(self.rt;
                "smsd: connection {number} ended: {came} bytes came, {sent} were sent, last status {status}"
            ),
            None => eprintln!(self.rt;
                "smsd: connection {number} ended: {came} bytes came, {sent} were sent"
            ),
        };
    }
}

impl<'a, D: Readiness> Readiness for LoggedDoor<'a, D> {
    type Conn = CountedWire<D::Conn>;

    ghost seen = { λ d. D.seen d.door };

    ghost back = { λ d. None };

    fn next(&mut self) -> Result<Event<CountedWire<D::Conn>>, Failed> {
        match self.door.next() {
            Ok(Event::Came(conn)) => Ok(Event::Came(CountedWire::new(conn))),
            Ok(Event::Ready(key)) => Ok(Event::Ready(key)),
            Ok(Event::Idle(key)) => Ok(Event::Idle(key)),
            Ok(Event::Quiet) => Ok(Event::Quiet),
            Ok(Event::Ended) => Ok(Event::Ended),
            Err(error) => Err(error),
        }
    }

    fn watch(&mut self, conn: &mut CountedWire<D::Conn>, key: usize) -> Result<(), Failed> {
        self.door.watch(&mut conn.wire, key)
    }

    fn rest(&mut self, conn: &mut CountedWire<D::Conn>, key: usize) {
        self.door.rest(&mut conn.wire, key);
    }

    fn done(&mut self, conn: CountedWire<D::Conn>) {
        self.tell(&conn);
        self.door.done(conn.wire);
    }
}
