//! What the calls of a connection came to.
ghost use Rattle.std.specs.Prelude.{◌≡◌};
ghost use Rattle.ready_wires.specs.Wires.{after_read, after_write, no_marks, untried};

use sms_base::Failed;

/// What the calls of a connection came to.
#[derive(Clone, Copy)]
pub struct Marks {
    /// The last read gave nothing, into a buffer with room: the input has ended.
    pub ended: bool,
    /// A call failed.
    pub failed: bool,
    /// The last read would have waited.
    pub read_waits: bool,
    /// The last write would have waited.
    pub write_waits: bool,
    /// A call gave or took bytes since the connection was watched or laid to rest last.
    pub moved: bool,
    /// A call did, or would have waited.
    pub tried: bool,
}

impl Marks {
    /// Those of a connection of which no call was made.
    pub fn new() -> Self
        ensures { result ≡ no_marks }
    {
        Marks {
            ended: false,
            failed: false,
            read_waits: false,
            write_waits: false,
            moved: false,
            tried: false,
        }
    }

    /// The connection is watched or laid to rest.
    pub fn forget(&mut self)
        ensures { self.new ≡ untried self.old }
    {
        self.moved = false;
        self.tried = false;
    }

    /// A read into so many bytes came to this.
    pub fn read(&mut self, room: usize, answer: Result<Option<usize>, Failed>)
        ensures { self.new ≡ after_read self.old room answer }
    {
        self.read_waits = false;
        match answer {
            Ok(Some(0)) => self.ended = self.ended || room != 0,
            Ok(Some(_)) => {
                self.ended = false;
                self.moved = true;
                self.tried = true;
            }
            Ok(None) => {
                self.read_waits = true;
                self.tried = true;
            }
            Err(_) => self.failed = true,
        }
    }

    /// A write came to this.
    pub fn wrote(&mut self, answer: Result<Option<usize>, Failed>)
        ensures { self.new ≡ after_write self.old answer }
    {
        self.write_waits = false;
        match answer {
            Ok(Some(0)) => {}
            Ok(Some(_)) => {
                self.moved = true;
                self.tried = true;
            }
            Ok(None) => {
                self.write_waits = true;
                self.tried = true;
            }
            Err(_) => self.failed = true,
        }
    }
}
