//! What the words of the command line ask for.
use crate::running::Running;
use crate::serving::Serving;
use store_report::Query;

/// What is asked for, and of which store.
#[derive(Clone, Copy)]
pub struct Asked<'a> {
    /// The path of the store's file.
    pub store: &'a str,
    pub task: Task<'a>,
}

/// What is done with the store (docs/manual/smsd.md).
#[derive(Clone, Copy)]
pub enum Task<'a> {
    /// A script is answered on it so: that of the file at this path, or without one that on standard input.
    Run {
        script: Option<&'a str>,
        running: Running,
    },
    /// This is listed of it.
    List(Query),
    /// It is served so.
    Serve(Serving),
    /// It is told what an activation of the deck in the file at this path would be answered on it.
    Check {
        deck: &'a str,
    },
    /// What space management has to do on this day is done on it; with `dry` it is told and not done.
    Manage {
        day: u32,
        dry: bool,
    },
}
