//! Steps of a connection.

/// Why a connection is served no further.
#[derive(Clone, Copy, Debug, PartialEq, Eq)]
pub enum Left {
    /// Its last answer was given, a message of it was refused, or memory was wanting; all that was due was sent.
    Answered,
    /// Its input has ended, and all that was due was sent.
    InputEnded,
    /// A call of it failed.
    Failed,
    /// As many connections as may be were served when it came; it was told so.
    TurnedAway,
    /// It couldn't be watched.
    Unwatched,
    /// Nothing happened for too long.
    Idle,
}

/// What a connection can do after a step.
#[derive(Clone, Copy, Debug, PartialEq, Eq)]
pub enum Step {
    /// It may go on at once.
    Again,
    /// It waits until it is ready.
    Waits,
    /// It is served no further.
    Over(Left),
}
