//! Jobs: what a command line asks for.

/// What is to be done with a script.
#[derive(Clone, Copy)]
pub(crate) enum ScriptTask {
    /// Play it.
    Play {
        /// How many workers make a run.
        workers: u8,
        /// Whether all is well only where no command was refused.
        strict: bool,
    },
    /// Draw its history.
    Show {
        /// How many workers make a run.
        workers: u8,
    },
    /// Write its record.
    Record {
        /// How many workers make a run.
        workers: u8,
    },
}

/// What is asked of a recorded run.
#[derive(Clone, Copy)]
pub(crate) enum Question<'a> {
    /// Which receipts are lost, and which members are orphans.
    Audit,
    /// Which receipts could be lost with an orphan left, and of which that a restart undid an orphan is left. All is well where there is
    /// neither.
    Check,
    /// Its picture: around the entry that these words name as a check names it, if there are some.
    Draw(Option<&'a str>),
}

/// What is to be done with a recorded run.
#[derive(Clone, Copy)]
pub(crate) enum RunTask<'a> {
    /// Answer this.
    Judge(Question<'a>),
    /// Put its events into an order, and write it as a line.
    Merge,
}

/// What is to be done with the input.
#[derive(Clone, Copy)]
pub(crate) enum Task<'a> {
    Script(ScriptTask),
    Run(RunTask<'a>),
}

/// What the words of a command line ask for.
#[derive(Drop)]
pub(crate) struct Job<'a> {
    pub(crate) task: Task<'a>,
    /// Whether explanations are written on standard error. The text and the exit status are the same with them.
    pub(crate) explain: bool,
    /// The names of the files that are read, in order. A script is in one.
    pub(crate) inputs: Vec<&'a str>,
    /// The name of the file to write, if one is given.
    pub(crate) output: Option<&'a str>,
}
