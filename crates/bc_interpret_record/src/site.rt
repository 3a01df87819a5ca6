//! Where a run can stop: the commands of a program, numbered over all its sections.

/// What is about to happen at a stop.
#[derive(Clone, Copy)]
pub enum StopKind {
    /// An assignment.
    Assign,
    /// A call as a command.
    Call,
    /// An IF or UNLESS.
    If,
    /// A TEST.
    Test,
    /// The test of a WHILE or UNTIL.
    While,
    /// The test of a REPEATWHILE or REPEATUNTIL.
    Repeat,
    /// A FOR: its start, or a round.
    For,
    /// A SWITCHON.
    Switch,
    /// A RESULTIS.
    ResultIs,
    /// A BREAK.
    Break,
    /// A LOOP.
    Loop,
    /// An ENDCASE.
    EndCase,
    /// A RETURN.
    Return,
    /// A GOTO.
    Goto,
    /// A FINISH.
    Finish,
    /// A LET with initial values.
    Let,
    /// The body of a routine that is an expression.
    Body,
    /// The end of the run.
    End,
}

/// A body that has its own code.
#[derive(Clone, Copy)]
pub enum InBody {
    /// The body of the routine with this label of its section.
    Routine(u64),
    /// The body of the VALOF with this number of its section.
    Valof(u64),
}

/// Where a run can stop.
#[derive(Clone, Copy)]
pub struct StopSite {
    /// The index of the section.
    pub section: usize,
    /// The body that contains the command.
    pub body: InBody,
    /// What is about to happen.
    pub kind: StopKind,
    /// How many roots (expressions, tests and assignments) of the body come before it in the text.
    pub root: u64,
    /// For a command without a root: how many such commands come before it since the last root of the body.
    pub skipped: u64,
}
