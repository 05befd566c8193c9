//! Who tells when connections are ready.
ghost use Rattle.std.specs.Prelude.{◌≡◌, List, Some, [], ◌∷◌, ℕ, OnOk};
ghost use Rattle.std.specs.declared.option.Option.{Option};
ghost use Rattle.desk_common.specs.Causes.{HasCause};
ghost use Rattle.sms_base.specs.Counts.{one_call_more};
ghost use Rattle.ready_wires.specs.Wires.{after_rest, after_watch};
ghost use Rattle.ready_wires.specs.Events.{IsAwaited, IsFresh, KeepsAwaited, ReadySeen, Tells, TellsEnd, TellsIdle};
ghost use Rattle.ready_wires.specs.Events.{came_after, count_told};

use crate::wire::Wire;
use sms_base::Failed;

/// What happened.
#[derive(Drop)]
pub enum Event<C> {
    /// A connection came.
    Came(C),
    /// The connection that is watched under this key may be read, written or is gone; it may be none of them.
    Ready(usize),
    /// Nothing happened for too long at the connection that is watched under this key.
    Idle(usize),
    /// Nothing happened for a while.
    Quiet,
    /// Nothing more happens.
    Ended,
}

/// Tells what happens at connections, one event after the other.
pub trait Readiness {
    type Conn: Wire + Drop;

    /// What is seen of it.
    ghost seen: { Self → ReadySeen };

    /// The connections that were handed back, where they are told.
    ghost back: { Self → Option (List Self.Conn) };

    /// Waits for the next event.
    fn next(&mut self) -> Result<Event<Self::Conn>, Failed>
        ensures fresh { IsFresh Self.Conn.seen result }
        ensures back { back self.new ≡ back self.old }
        ensures calls { (seen self.new).calls ≡ one_call_more (seen self.old).calls }
        ensures came { (seen self.new).came ≡ came_after (seen self.old).came result }
        ensures idle { TellsIdle (seen self.old).idle (seen self.new).idle result }
        ensures awaited { KeepsAwaited (seen self.old).awaited (seen self.new).awaited result }
        ensures end { TellsEnd (seen self.new).ended result }
        ensures cause { HasCause (seen self.old).faults (seen self.new).faults result };

    /// Tells under this key from now on when the connection is ready, at once if it is.
    fn watch(&mut self, conn: &mut Self::Conn, key: usize) -> Result<(), Failed>
        ensures conn { Self.Conn.seen conn.new
            ≡ after_watch key (count_told (seen self.old).idle) (Self.Conn.seen conn.old) result }
        ensures told { OnOk result (IsAwaited (seen self.new).awaited key) }
        ensures awaited { (other : ℕ) → IsAwaited (seen self.old).awaited other
            → IsAwaited (seen self.new).awaited other }
        ensures back { back self.new ≡ back self.old }
        ensures calls { (seen self.new).calls ≡ (seen self.old).calls }
        ensures came { (seen self.new).came ≡ (seen self.old).came }
        ensures idle { (seen self.new).idle ≡ (seen self.old).idle }
        ensures cause { HasCause (seen self.old).faults (seen self.new).faults result };

    /// Tells under this key, under which it is watched already, when the connection is ready for what its last call
    /// would have waited for.
    fn rest(&mut self, conn: &mut Self::Conn, key: usize)
        ensures conn { Self.Conn.seen conn.new ≡ after_rest (Self.Conn.seen conn.old) }
        ensures told { IsAwaited (seen self.new).awaited key }
        ensures awaited { (other : ℕ) → IsAwaited (seen self.old).awaited other
            → IsAwaited (seen self.new).awaited other }
        ensures back { back self.new ≡ back self.old }
        ensures calls { (seen self.new).calls ≡ (seen self.old).calls }
        ensures came { (seen self.new).came ≡ (seen self.old).came }
        ensures idle { (seen self.new).idle ≡ (seen self.old).idle }
        ensures faults { (seen self.new).faults ≡ (seen self.old).faults };

    /// Takes a connection back, and closes it.
    fn done(&mut self, conn: Self::Conn)
        ensures back { Tells (back self.old) (back self.new) (conn ∷ []) }
        ensures awaited { (other : ℕ) → IsAwaited (seen self.old).awaited other
            → IsAwaited (seen self.new).awaited other }
        ensures calls { (seen self.new).calls ≡ (seen self.old).calls }
        ensures came { (seen self.new).came ≡ (seen self.old).came }
        ensures idle { (seen self.new).idle ≡ (seen self.old).idle }
        ensures faults { (seen self.new).faults ≡ (seen self.old).faults };
}
