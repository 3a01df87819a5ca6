//! The words of the debugger: its commands and their short forms.

/// A command of the debugger.
#[derive(Clone, Copy, Debug, PartialEq, Eq)]
pub enum Word {
    Run,
    Start,
    Continue,
    Step,
    Next,
    Finish,
    Until,
    ReverseStep,
    ReverseNext,
    ReverseContinue,
    ReverseFinish,
    Break,
    Watch,
    Delete,
    Info,
    Print,
    Backtrace,
    Frame,
    Up,
    Down,
    List,
    Output,
    Goto,
    Last,
    Input,
    Library,
    Help,
    Quit,
}

/// A command: its word, its short forms, and what it does.
pub struct WordSpec {
    /// The command.
    pub word: Word,
    /// Its names: the word first.
    pub names: &'static [&'static str],
    /// What follows it.
    pub arguments: &'static str,
    /// What it does.
    pub help: &'static str,
}

impl WordSpec {
    /// The command's whole name, if it begins with these letters.
    pub fn name_like(&self, letters: &str) -> Option<&'static str> {
        match self.names {
            [full, ..] if begins_with(*full, letters) => Some(*full),
            _ => None,
        }
    }
}

/// All commands.
pub static WORDS: [WordSpec; 28] = [
    WordSpec {
        word: Word::Run,
        names: &["run", "r"],
        arguments: "",
        help: "goes from the start to a breakpoint or the end",
    },
    WordSpec {
        word: Word::Start,
        names: &["start"],
        arguments: "",
        help: "goes to the first command",
    },
    WordSpec {
        word: Word::Continue,
        names: &["continue", "c"],
        arguments: "[N]",
        help: "goes on to a breakpoint or the end",
    },
    WordSpec {
        word: Word::Step,
        names: &["step", "s"],
        arguments: "[N]",
        help: "goes to the next command, into calls",
    },
    WordSpec {
        word: Word::Next,
        names: &["next", "n"],
        arguments: "[N]",
        help: "goes to the next command, over calls",
    },
    WordSpec {
        word: Word::Finish,
        names: &["finish", "fin"],
        arguments: "",
        help: "goes on until this call returns",
    },
    WordSpec {
        word: Word::Until,
        names: &["until", "u"],
        arguments: "LINE",
        help: "goes on to this line",
    },
    WordSpec {
        word: Word::ReverseStep,
        names: &["reverse-step", "rs"],
        arguments: "[N]",
        help: "goes a command back, into calls",
    },
    WordSpec {
        word: Word::ReverseNext,
        names: &["reverse-next", "rn"],
        arguments: "[N]",
        help: "goes a command back, over calls",
    },
    WordSpec {
        word: Word::ReverseContinue,
        names: &["reverse-continue", "rc"],
        arguments: "[N]",
        help: "goes back to a breakpoint or the start",
    },
    WordSpec {
        word: Word::ReverseFinish,
        names: &["reverse-finish", "rf"],
        arguments: "",
        help: "goes back to where this call was made",
    },
    WordSpec {
        word: Word::Break,
        names: &["break", "b"],
        arguments: "[LINE|FILE:LINE|ROUTINE] [if E]",
        help: "stops there, or on this line, if E is true",
    },
    WordSpec {
        word: Word::Watch,
        names: &["watch"],
        arguments: "NAME|ADDRESS",
        help: "stops where this cell changes",
    },
    WordSpec {
        word: Word::Delete,
        names: &["delete", "d"],
        arguments: "[N ..]",
        help: "deletes these breakpoints, or all of them",
    },
    WordSpec {
        word: Word::Info,
        names: &["info", "i"],
        arguments: "breakpoints|locals|globals|routines",
        help: "lists these",
    },
    WordSpec {
        word: Word::Print,
        names: &["print", "p"],
        arguments: "[/F] E",
        help: "prints a value, as d u x o c t s or v",
    },
    WordSpec {
        word: Word::Backtrace,
        names: &["backtrace", "bt", "where"],
        arguments: "",
        help: "lists the calls that the run is in",
    },
    WordSpec {
        word: Word::Frame,
        names: &["frame", "f"],
        arguments: "[N]",
        help: "selects call N for print and info",
    },
    WordSpec {
        word: Word::Up,
        names: &["up"],
        arguments: "",
        help: "selects the caller of the selected call",
    },
    WordSpec {
        word: Word::Down,
        names: &["down"],
        arguments: "",
        help: "selects what the selected call called",
    },
    WordSpec {
        word: Word::List,
        names: &["list", "l"],
        arguments: "[LINE|ROUTINE]",
        help: "lists the source there, or around this line",
    },
    WordSpec {
        word: Word::Output,
        names: &["output", "o"],
        arguments: "",
        help: "prints what the program has written",
    },
    WordSpec {
        word: Word::Goto,
        names: &["goto", "g"],
        arguments: "N",
        help: "goes to stop number N",
    },
    WordSpec {
        word: Word::Last,
        names: &["last"],
        arguments: "NAME|ADDRESS",
        help: "says which command changed this cell last",
    },
    WordSpec {
        word: Word::Input,
        names: &["input"],
        arguments: "TEXT",
        help: "adds a line to what the next run reads",
    },
    WordSpec {
        word: Word::Library,
        names: &["library"],
        arguments: "[on|off]",
        help: "lets step and next go into the library",
    },
    WordSpec {
        word: Word::Help,
        names: &["help", "h"],
        arguments: "",
        help: "lists the commands",
    },
    WordSpec {
        word: Word::Quit,
        names: &["quit", "q"],
        arguments: "",
        help: "ends the debugger",
    },
];

/// Whether a name of a command begins with these letters, small or capital ones.
fn begins_with(name: &str, letters: &str) -> bool {
    letters.len() <= name.len()
        && letters
            .as_bytes()
            .iter()
            .zip(name.as_bytes().iter())
            .all(|(letter, wanted)| letter.to_ascii_lowercase() == *wanted)
}

/// The command with this name or short form, in small or capital letters.
pub fn word_of(name: &str) -> Option<Word> {
    for spec in &WORDS {
        for spelled in spec.names {
            if spelled.len() == name.len() && begins_with(*spelled, name) {
                return Some(spec.word);
            }
        }
    }
    None
}

/// The only command whose name begins so, for names that are cut off.
pub fn word_like(name: &str) -> Option<Word> {
    let mut found = None;
    for spec in &WORDS {
        if spec.name_like(name).is_some() {
            if found.is_some() {
                return None;
            }
            found = Some(spec.word);
        }
    }
    found
}
