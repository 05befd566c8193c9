//! How a connection is watched.
ghost use Rattle.std.specs.Prelude.{◌≡◌, Some, false, true};
ghost use Rattle.ready_wires.specs.Wires.{no_watch, since_first, vain_again};

/// How a connection is watched.
#[derive(Clone, Copy)]
pub struct Watch {
    /// The key under which it is watched.
    pub key: Option<usize>,
    /// How many keys had been told of as idle when it was watched first, where that is told.
    pub since: Option<usize>,
    /// It was laid to rest behind the last time it was watched.
    pub rests: bool,
    /// It was watched again though no call had given or taken bytes since, or laid to rest though none would have
    /// waited either.
    pub vain: bool,
    /// It couldn't be watched when that was tried last.
    pub failed: bool,
}

impl Watch {
    /// That of a connection that was never watched.
    pub fn new() -> Self
        ensures { result ≡ no_watch }
    {
        Watch {
            key: None,
            since: None,
            rests: false,
            vain: false,
            failed: false,
        }
    }

    /// The connection is watched under this key; so many keys had been told of as idle, and a call had given or taken
    /// bytes since it was last, or none had.
    pub fn begin(&mut self, key: usize, told: Option<usize>, moved: bool)
        ensures { self.new ≡ record {
          key = Some key;
          since = since_first self.old told;
          rests = false;
          vain = vain_again self.old moved;
          failed = false;
        } }
    {
        if self.key.is_none() {
            self.since = told;
        } else if !moved {
            self.vain = true;
        }
        self.key = Some(key);
        self.rests = false;
        self.failed = false;
    }

    /// The connection is laid to rest; a call had given or taken bytes or would have waited since it was watched
    /// last, or none had.
    pub fn rest(&mut self, tried: bool)
        ensures { self.new ≡ record self.old { rests = true; vain = vain_again self.old tried } }
    {
        if self.key.is_some() && !tried {
            self.vain = true;
        }
        self.rests = true;
    }
}
