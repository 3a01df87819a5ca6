//! The table of commands: their arguments, options and help texts.

use crate::grammar::{Argument, CommandSpec, Constraint, Form, Numbers, with_commands};
use crate::serving::LSP;
use crate::version::VERSION;
use clap::Command;
use std::alloc::{AllocError, Global};

/// When explanations of a refusal are printed.
const PLACES: Argument = Argument {
    name: "places",
    form: Form::Option("WHEN"),
    constraint: Constraint::Free,
    help: "Explain refusals after their first line: always, never or auto (on a terminal) [default: BCPL_PLACES, or auto]",
};

/// How messages are printed.
const MESSAGES: Argument = Argument {
    name: "messages",
    form: Form::Option("FORM"),
    constraint: Constraint::Free,
    help: "Print messages as text, or as json: one object a line [default: BCPL_MESSAGES, or text]",
};

/// How many errors are explained.
const ERRORS: Argument = Argument {
    name: "errors",
    form: Form::Option("HOW"),
    constraint: Constraint::Free,
    help: "Explain all errors of each file, with all, instead of the first 20",
};

/// A further library, compiled after BLIB and before the files.
const LIBRARY: Argument = Argument {
    name: "library",
    form: Form::Option("LIBRARY"),
    constraint: Constraint::Free,
    help: "Also link this library: ext (EXTLIB, declared by EXTHDR)",
};

/// A file for GET.
const GET: Argument = Argument {
    name: "get",
    form: Form::Repeated("NAME=PATH"),
    constraint: Constraint::Free,
    help: "Use file PATH for GET \"NAME\" (LIBHDR is always the built-in header)",
};

/// A folder with files for GET.
const INCLUDE: Argument = Argument {
    name: "include",
    form: Form::LetteredRepeated("DIR", 'I'),
    constraint: Constraint::Free,
    help: "Look in folder DIR for a GET \"NAME\" that no source has",
};

/// A further input stream.
const IN: Argument = Argument {
    name: "in",
    form: Form::Repeated("NAME=PATH"),
    constraint: Constraint::Free,
    help: "Attach file PATH as the input stream NAME",
};

/// A further output stream.
const TO: Argument = Argument {
    name: "to",
    form: Form::Repeated("NAME=PATH"),
    constraint: Constraint::Free,
    help: "Attach file PATH as the output stream NAME",
};

/// One or more sources.
const FILES: Argument = Argument {
    name: "FILE",
    form: Form::Words("FILE", 1),
    constraint: Constraint::Required,
    help: "BCPL source files, one section each; - is standard input",
};

/// One or more texts, of which - is the name of a file.
const TEXTS: Argument = Argument {
    name: "TEXT",
    form: Form::Words("TEXT", 1),
    constraint: Constraint::Required,
    help: "INTCODE text files, linked in this order; /dev/stdin is standard input",
};

/// Writes files with several names in place.
const KEEP_LINKS: Argument = Argument {
    name: "keep-links",
    form: Form::Flag,
    constraint: Constraint::Free,
    help: "Write an output that has further hard links in place, so that they lead to the new content too",
};

/// Suppresses warnings.
const NO_WARNINGS: Argument = Argument {
    name: "no-warnings",
    form: Form::Flag,
    constraint: Constraint::Free,
    help: "Don't warn about valid code that is probably a mistake",
};

/// Ends a run at probable mistakes too.
const STRICT: Argument = Argument {
    name: "strict",
    form: Form::Flag,
    constraint: Constraint::Free,
    help: "Stop also at accesses that are lawful and nearly always mistakes",
};

const BUILD: CommandSpec = CommandSpec {
    name: "build",
    about: "Compiles BCPL sources to INTCODE text and certifies that the code is as short as possible",
    more: "Each FILE is one section and becomes one segment. The library BLIB is compiled first, as the first segment;\n\
           sources declare it with GET \"LIBHDR\". With --library ext, EXTLIB follows it; GET \"EXTHDR\" declares both.\n\
           With --lean, its source is cut before it is compiled: a program that calls a routine of the library by the\n\
           number of its global, and not by its name, must not be built so.\n\n\
           On success, prints `ok`, the number of segments, the number of certificate entries, and the address at which\n\
           the stack begins.\n\n\
           Exit status: 0 success, 1 refused, 3 invalid arguments.\n\n\
           Example:\n  bcpl build --out hello.int --cert hello.cert hello.bcpl",
    arguments: &[
        Argument {
            name: "out",
            form: Form::Lettered("OUT", 'o'),
            constraint: Constraint::Required,
            help: "Write the INTCODE text to this file; - is standard output",
        },
        Argument {
            name: "cert",
            form: Form::Option("CERT"),
            constraint: Constraint::Free,
            help: "Write the certificate to this file",
        },
        Argument {
            name: "get",
            form: Form::Repeated("NAME=PATH"),
            constraint: Constraint::Free,
            help: "Use file PATH for GET \"NAME\" (the first source of a name counts, and LIBHDR is always the built-in header)",
        },
        INCLUDE,
        LIBRARY,
        Argument {
            name: "lean",
            form: Form::Flag,
            constraint: Constraint::Free,
            help: "Link only those routines of the library whose names occur in the sources, and what these need",
        },
        Argument {
            name: "no-library",
            form: Form::Flag,
            constraint: Constraint::Without(&["lean"]),
            help: "Write a text without the library, to be linked with a text that has it",
        },
        KEEP_LINKS,
        Argument {
            name: "tame",
            form: Form::Flag,
            constraint: Constraint::Without(&["lean", "no-library"]),
            help: "Refuse the program unless it is tame, as the command `tame` decides",
        },
        PLACES,
        MESSAGES,
        ERRORS,
        NO_WARNINGS,
        Argument {
            name: "FILE",
            form: Form::Words("FILE", 1),
            constraint: Constraint::Required,
            help: "BCPL source files, one section each; /dev/stdin is standard input",
        },
    ],
};

const SHOW: CommandSpec = CommandSpec {
    name: "show",
    about: "Lists the tokens, the syntax tree, the canonical spelling, the scopes or the code of a source",
    more: "tokens: each token with its line and column, and the line breaks that count as semicolons\n\
           tree:   the syntax tree, a node per line with its place; as a graph or as JSON with --form\n\
           source: the same tree as BCPL, in canonical spelling and layout, which compiles to the same code\n\
           scopes: the frame of each routine; statics, tables and strings; globals and what sets them\n\
           code:   each source line followed by its INTCODE, with the size and rules of each expression, and what\n\
           \x20       these rules mean; without its comments, the listing is the file's segment\n\n\
           Exit status: 0 success, 1 refused, 3 invalid arguments.\n\n\
           Examples:\n  bcpl show code hello.bcpl\n  bcpl show tree --form dot hello.bcpl | dot -Tsvg > hello.svg",
    arguments: &[
        Argument {
            name: "LISTING",
            form: Form::Word("LISTING"),
            constraint: Constraint::Required,
            help: "What to list: tokens, tree, source, scopes or code",
        },
        Argument {
            name: "form",
            form: Form::Option("FORM"),
            constraint: Constraint::Free,
            help: "Print the tree as indented lines (tree), as a graph for dot (dot) or as JSON (json) [default: tree]",
        },
        GET,
        INCLUDE,
        LIBRARY,
        PLACES,
        MESSAGES,
        Argument {
            name: "FILE",
            form: Form::Word("FILE"),
            constraint: Constraint::Required,
            help: "The BCPL source file; - is standard input",
        },
    ],
};

const EXPLAIN: CommandSpec = CommandSpec {
    name: "explain",
    about: "Writes an HTML page that explains why no expression of a source has shorter code",
    more: "The page shows each source line next to its code. Open an expression, a test or an assignment to see its tree, and a\n\
           node to see, for each use of it, every rule that applies, with the code it would give and its words, the least\n\
           first, and why the others don't apply. An index of routines with their words, a search, the rules, and what is\n\
           proved and checked are there too. The page is one file; its script requests nothing.\n\n\
           Exit status: 0 success, 1 refused, 3 invalid arguments.\n\n\
           Example:\n  bcpl explain --out hello.html hello.bcpl",
    arguments: &[
        Argument {
            name: "out",
            form: Form::Lettered("REPORT", 'o'),
            constraint: Constraint::Free,
            help: "Write the page to this file [default: standard output, unless that is a terminal]",
        },
        GET,
        INCLUDE,
        LIBRARY,
        PLACES,
        MESSAGES,
        FILES,
    ],
};

const LIST: CommandSpec = CommandSpec {
    name: "list",
    about: "Links INTCODE texts after the primitives and lists the image word by word",
    more: "Lists each word, beginning with the boot code: its address, its value, and its INTCODE item. Each label has a\n\
           separate line with its global and the jumps to it; strings and tables are shown as such. With --cert, the\n\
           listing marks where each expression, test and assignment of the certificate begins. With --source, it names\n\
           each routine before its label, with its file and line; a text that was built with --lean has none for the\n\
           library's. With --sizes, it has a line for each part instead: the first address, the words, those of code and\n\
           of data, and how many globals the part sets.\n\n\
           Exit status: 0 success, 1 refused, 3 invalid arguments.\n\n\
           Examples:\n  bcpl list --cert hello.cert hello.int\n  bcpl list --sizes hello.int",
    arguments: &[
        Argument {
            name: "sizes",
            form: Form::Flag,
            constraint: Constraint::Without(&["cert", "source"]),
            help: "List how many words each part of the image takes: the boot code, the globals and each segment",
        },
        Argument {
            name: "cert",
            form: Form::Option("CERT"),
            constraint: Constraint::Free,
            help: "Check this certificate of the texts first, and mark its entries",
        },
        Argument {
            name: "source",
            form: Form::Repeated("FILE"),
            constraint: Constraint::Free,
            help: "Name the routines of this source file, from which build wrote the texts, with their lines",
        },
        GET,
        LIBRARY,
        PLACES,
        MESSAGES,
        Argument {
            name: "TEXT",
            form: Form::Words("TEXT", 1),
            constraint: Constraint::Required,
            help: "INTCODE text files, linked in this order; - is standard input",
        },
    ],
};

const ASSEMBLE: CommandSpec = CommandSpec {
    name: "asm",
    about: "Links INTCODE texts after the primitives and prints the words of the store",
    more: "Prints the words from address 0 up to the base of the stack, one per line, in decimal.\n\n\
           With --format hex, bin-le, bin-be, c and srec, the base of the stack comes first:\n\
           words:  a decimal number per line, without the base of the stack\n\
           hex:    four hexadecimal digits per line\n\
           bin-le: two bytes per word, low byte first\n\
           bin-be: two bytes per word, high byte first\n\
           ihex:   Intel HEX, low byte first, at twice the word's address; the base of the stack is the number of words\n\
           c:      C source with a constant and an array\n\
           srec:   Motorola S-records, high byte first, at twice the word's address\n\n\
           With --segments, the words begin at address 520, so that a ROM can hold them.\n\n\
           Exit status: 0 success, 1 refused, 3 invalid arguments.\n\n\
           Examples:\n  bcpl asm hello.int\n  bcpl asm --format bin-le hello.int > hello.img",
    arguments: &[
        Argument {
            name: "format",
            form: Form::Option("FORMAT"),
            constraint: Constraint::Free,
            help: "How to print: words, hex, bin-le, bin-be, ihex, c or srec [default: words]",
        },
        Argument {
            name: "segments",
            form: Form::Flag,
            constraint: Constraint::Free,
            help: "Leave out the boot code and the globals: print the words from address 520 on",
        },
        PLACES,
        MESSAGES,
        TEXTS,
    ],
};

const RUN: CommandSpec = CommandSpec {
    name: "run",
    about: "Links INTCODE texts after the primitives and runs them",
    more: "Input 1 is standard input, named SYSIN; output 1 is standard output, named SYSPRINT.\n\n\
           With --files, FINDINPUT and FINDOUTPUT find the files of folder DIR too, while the run goes on: a name that was\n\
           written can be read after ENDWRITE. A name has letters, digits and any of `._-`, and does not begin with a point.\n\
           The program can replace each file of DIR.\n\n\
           With --trace, --profile or --high the run does the same, only slower; the files are written even if the run\n\
           does not finish. CELL is the highest cell in which an instruction was executed, or that an instruction read\n\
           or wrote; FRAME is the highest address at which a frame began. A line `bcpl: wrote PART FIRST to LAST` follows for\n\
           each range of cells that were written; PART is boot, globals, segments or stack, which has one range. With\n\
           --source, the profile names the routines of these sources and of the library, with file and line.\n\n\
           A program gets no arguments and no environment, and has no exit status of its own.\n\n\
           Exit status: 0 the program finished, 1 refused, 2 the run ended in another way (reported on standard error),\n\
           3 invalid arguments.\n\n\
           Examples:\n  bcpl run --steps 1000000 --in DATA=data.txt hello.int\n\
           \x20 bcpl run --steps 1000000 --trace hello.trace --from 100 --count 20 --profile hello.profile hello.int",
    arguments: &[
        Argument {
            name: "steps",
            form: Form::Number("N"),
            constraint: Constraint::Required,
            help: "Stop after N instructions: a number such as 1000000, 1_000_000, 1e6, 10M or 2k",
        },
        IN,
        TO,
        Argument {
            name: "files",
            form: Form::Option("DIR"),
            constraint: Constraint::Free,
            help: "Let the program open the files of folder DIR by name, and make new ones in it",
        },
        PLACES,
        MESSAGES,
        TEXTS,
        Argument {
            name: "trace",
            form: Form::Option("FILE"),
            constraint: Constraint::Free,
            help: "Write a line for each instruction to this file: the registers after it, and what it wrote",
        },
        Argument {
            name: "from",
            form: Form::Number("N"),
            constraint: Constraint::With("trace"),
            help: "Start the trace at instruction N, counted from 1 [default: 1]",
        },
        Argument {
            name: "count",
            form: Form::Number("M"),
            constraint: Constraint::With("trace"),
            help: "Trace M instructions [default: 1000]",
        },
        Argument {
            name: "profile",
            form: Form::Option("FILE"),
            constraint: Constraint::Free,
            help: "Write to this file how often each instruction ran, and the ten hottest routines",
        },
        Argument {
            name: "source",
            form: Form::Repeated("FILE"),
            constraint: Constraint::With("profile"),
            help: "Name the routines of this source file, from which build wrote the texts, in the profile",
        },
        Argument {
            name: "get",
            form: Form::Repeated("NAME=PATH"),
            constraint: Constraint::With("source"),
            help: "Use file PATH for GET \"NAME\" in these sources",
        },
        Argument {
            name: "library",
            form: Form::Option("LIBRARY"),
            constraint: Constraint::With("source"),
            help: "The texts were built with this library: ext",
        },
        Argument {
            name: "high",
            form: Form::Flag,
            constraint: Constraint::Free,
            help: "Print on standard error how much of the store the run used, and which cells it wrote",
        },
    ],
};

const GO: CommandSpec = CommandSpec {
    name: "go",
    about: "Builds BCPL sources and runs them, without writing files",
    more: "Compiles the sources as `build` does, prints the warnings, and runs the image as `run` does. Input 1 is\n\
           standard input, named SYSIN; output 1 is standard output, named SYSPRINT. A program gets no arguments and no\n\
           environment, and has no exit status of its own.\n\n\
           With --strict, runs the meaning of the sources instead, exactly as `interpret --strict` does.\n\n\
           Exit status: 0 the program finished, 1 refused, 2 the run ended in another way (reported on standard error,\n\
           with the command that shows where), 3 invalid arguments.\n\n\
           Examples:\n  bcpl go hello.bcpl\n  bcpl go --steps 10M --in DATA=data.txt main.bcpl tables.bcpl",
    arguments: &[
        Argument {
            name: "steps",
            form: Form::Number("N"),
            constraint: Constraint::Without(&["strict"]),
            help: "Stop after N instructions, such as 1e6 or 10M [default: 10000000000]",
        },
        STRICT,
        Argument {
            name: "turns",
            form: Form::Number("N"),
            constraint: Constraint::With("strict"),
            help: "Stop after N turns [default: 100000000]",
        },
        LIBRARY,
        GET,
        INCLUDE,
        IN,
        TO,
        PLACES,
        MESSAGES,
        ERRORS,
        NO_WARNINGS,
        FILES,
    ],
};

const INTERPRET: CommandSpec = CommandSpec {
    name: "interpret",
    about: "Runs BCPL sources by their meaning and reports the first wild cell",
    more: "Compiles the sources as `build` does, then runs their meaning instead of their code. If this run meets\n\
           no wild cell, `run` does the same with the built text on the same input: that is a theorem. The run stops at\n\
           the first wild cell: reading a cell that was never set, reading or writing a cell that does not exist, or\n\
           calling something that is not a routine. What happened and where is printed unless --places never is given,\n\
           on a terminal or not.\n\n\
           With --strict the run also stops at what is lawful and nearly always a mistake: an index that leaves a vector,\n\
           a table or a string, counted from its start, even if it hits a cell; a global that no source names, or that\n\
           nothing set; a write into a string. This is no theorem, and it doesn't find all such mistakes.\n\n\
           A turn is a call, a GOTO, or one jump back in a loop. Streams work as in `run`.\n\n\
           A program gets no arguments and no environment, and has no exit status of its own.\n\n\
           Exit status: 0 the program finished, 1 refused, 2 the run ended in another way, 3 invalid arguments.\n\n\
           Example:\n  bcpl interpret hello.bcpl",
    arguments: &[
        Argument {
            name: "turns",
            form: Form::Number("N"),
            constraint: Constraint::Free,
            help: "Stop after N turns [default: 100000000]",
        },
        STRICT,
        LIBRARY,
        GET,
        INCLUDE,
        IN,
        TO,
        PLACES,
        MESSAGES,
        ERRORS,
        NO_WARNINGS,
        FILES,
    ],
};

const DEBUG: CommandSpec = CommandSpec {
    name: "debug",
    about: "Runs BCPL sources step by step, forwards and backwards",
    more: "Compiles the sources as `build` does, runs their meaning as `interpret` does, and records the run. The commands\n\
           have the words of gdb: step, next, finish, break, print and so on, and reverse-step and its like go back;\n\
           `last NAME` finds the command that changed a variable last. `help` lists them. They are read from standard\n\
           input, after the source if a FILE is -; then --script gives them.\n\n\
           With --out, writes the recording as a page for a browser instead. The page is self-contained.\n\n\
           With --strict, the run ends at what `interpret --strict` reports, and the command there is its last stop.\n\n\
           The program's standard input is the file that --input names, or empty. --in and --to attach further streams, as\n\
           in `interpret`; the files of --to are written when the session ends.\n\n\
           A program gets no arguments and no environment, and has no exit status of its own.\n\n\
           Exit status: 0 done, 1 refused, 3 invalid arguments.\n\n\
           Examples:\n  bcpl debug hello.bcpl\n  bcpl debug --out run.html hello.bcpl",
    arguments: &[
        Argument {
            name: "out",
            form: Form::Lettered("PAGE", 'o'),
            constraint: Constraint::Without(&["script"]),
            help: "Write the run as a page to this file",
        },
        Argument {
            name: "input",
            form: Form::Option("FILE"),
            constraint: Constraint::Free,
            help: "Let the program read this file as its standard input",
        },
        Argument {
            name: "record",
            form: Form::Number("N"),
            constraint: Constraint::Free,
            help: "Keep the last N stops of the run [default: 1000000]",
        },
        Argument {
            name: "turns",
            form: Form::Number("N"),
            constraint: Constraint::Free,
            help: "Stop the run after N turns [default: 10000000]",
        },
        STRICT,
        Argument {
            name: "script",
            form: Form::Lettered("FILE", 'x'),
            constraint: Constraint::Free,
            help: "Run the commands in this file first",
        },
        Argument {
            name: "batch",
            form: Form::Flag,
            constraint: Constraint::With("script"),
            help: "End after the commands in the file",
        },
        LIBRARY,
        GET,
        INCLUDE,
        IN,
        TO,
        PLACES,
        FILES,
    ],
};

const TAME: CommandSpec = CommandSpec {
    name: "tame",
    about: "Decides whether no run of a BCPL source can meet a wild cell",
    more: "Compiles the source as `build` does, and checks its text. If the answer is `ok tame ROOM`, every run of the\n\
           image has the output and the ending that the source means, on all inputs, if no device fails: that is a\n\
           theorem. ROOM is a number of cells, from two above the base of the stack, that suffices for every run.\n\n\
           Otherwise prints the first place that the check can't accept and what it would need. Such a program is not\n\
           known to be tame; it may be harmless. `interpret` says whether one run is wild.\n\n\
           The program is BLIB and the FILEs.\n\n\
           Exit status: 0 tame, 1 refused or not known to be tame, 3 invalid arguments.\n\n\
           Example:\n  bcpl tame hello.bcpl",
    arguments: &[LIBRARY, GET, INCLUDE, PLACES, MESSAGES, FILES],
};

const CHECK: CommandSpec = CommandSpec {
    name: "check",
    about: "Checks a certificate of least size, and compares it with INTCODE texts",
    more: "If the certificate is accepted, no derivation from the rule table needs fewer words, for any expression, test\n\
           or assignment in it. Prints `ok`, the number of entries, and the sum of their words.\n\n\
           Exit status: 0 accepted, 1 refused, 3 invalid arguments.\n\n\
           Example:\n  bcpl check hello.cert hello.int",
    arguments: &[
        PLACES,
        MESSAGES,
        Argument {
            name: "CERT",
            form: Form::Word("CERT"),
            constraint: Constraint::Required,
            help: "The certificate file; /dev/stdin is standard input",
        },
        Argument {
            name: "TEXT",
            form: Form::Words("TEXT", 0),
            constraint: Constraint::Free,
            help: "INTCODE text files that must contain the certified code",
        },
    ],
};

const CONVERT: CommandSpec = CommandSpec {
    name: "convert",
    about: "Converts sources from an older dialect of BCPL to this one",
    more: "Replaces only what differs: comments and layout stay, and a source in this dialect is unchanged. Reports\n\
           everything that can't be converted, each with what to do by hand; the rest is converted anyway.\n\n\
           Several FILEs, headers included, are treated as one program: if one of them needs EXTHDR, every file that gets\n\
           the library's header gets EXTHDR. Each line of OLD has a name from the library that the sources were written\n\
           for, blanks, and its name in this library.\n\n\
           A source that builds as it is stays byte for byte, unless --dialect names the system it was written for:\n\
           then it is converted too. With 1967 V*(I) is a subscript, with 1979 a product; with alto @ becomes !. Don't\n\
           convert a result again with --dialect.\n\n\
           With --project, FILE is a folder, and all sources in it are converted as one program; files can be named\n\
           instead, with --out-dir. OUT is a new folder, which is created. It also gets the script build.sh, which builds\n\
           the result, and REPORT.md and REPORT.html, which list what was changed and what is left to do by hand. A\n\
           second conversion to OUT keeps files that were edited by hand, and writes the new text to NAME.new.\n\n\
           Exit status: 0 all converted, 1 refused or something is left to do by hand, 3 invalid arguments.\n\n\
           Examples:\n  bcpl convert --out queens.bcpl queens.old\n\
           \x20 bcpl convert --in-place header main.bcpl tables.bcpl\n\
           \x20 bcpl convert --project old --out new",
    arguments: &[
        Argument {
            name: "FILE",
            form: Form::Word("FILE"),
            constraint: Constraint::Required,
            help: "The source file to convert, or - for standard input; with --project also a folder",
        },
        Argument {
            name: "FURTHER",
            form: Form::Words("FILE", 0),
            constraint: Constraint::With("PLACE"),
            help: "Further files of the same program; requires --in-place or --out-dir",
        },
        Argument {
            name: "out",
            form: Form::Lettered("OUT", 'o'),
            constraint: Constraint::Without(&["in-place", "out-dir"]),
            help: "Write the result to this file instead of standard output",
        },
        Argument {
            name: "in-place",
            form: Form::Flag,
            constraint: Constraint::OneOf("PLACE"),
            help: "Overwrite each FILE with its result, and keep the original as FILE.old",
        },
        Argument {
            name: "out-dir",
            form: Form::Option("FOLDER"),
            constraint: Constraint::OneOf("PLACE"),
            help: "Write the result of each FILE to this folder, under the same name; it is created",
        },
        Argument {
            name: "project",
            form: Form::Flag,
            constraint: Constraint::Without(&["in-place"]),
            help: "Convert a folder of sources to a folder that can be built, with a report; requires --out or --out-dir",
        },
        Argument {
            name: "overwrite",
            form: Form::Flag,
            constraint: Constraint::With("project"),
            help: "Replace also files in OUT that were edited by hand, and keep each as NAME.old",
        },
        Argument {
            name: "header",
            form: Form::Option("HEADER"),
            constraint: Constraint::Free,
            help: "Make sources get this header: libhdr or exthdr [default: the one they need]",
        },
        Argument {
            name: "dialect",
            form: Form::Option("SYSTEM"),
            constraint: Constraint::Free,
            help: "Take sources for those of this system: 1967 (mit), 1979 (cambridge, tripos, bbc) or alto [default: what they show]",
        },
        Argument {
            name: "define",
            form: Form::Repeated("TAG"),
            constraint: Constraint::Free,
            help: "Set this tag of conditional compilation; parts that aren't compiled become comments",
        },
        Argument {
            name: "library",
            form: Form::Option("OLD"),
            constraint: Constraint::Free,
            help: "A file that maps names of an old library to names of this one",
        },
        KEEP_LINKS,
        PLACES,
        MESSAGES,
    ],
};

const FORMAT: CommandSpec = CommandSpec {
    name: "format",
    about: "Lays out sources: indents lines and sets blanks, and changes nothing else",
    more: "Keeps every token and comment, and each line break between them, so that a build is the same byte for byte.\n\
           Of blank lines one stays, and two outside of sections. Only lines that are too long are broken, after an\n\
           operator, a comma or a semicolon. Files that a source gets are looked for beside it; they don't matter for its\n\
           layout.\n\n\
           Exit status: 0 done, 1 refused or, with --check, a source that isn't laid out, 3 invalid arguments.\n\n\
           Examples:\n  bcpl format queens.bcpl\n\
           \x20 bcpl format --in-place main.bcpl tables.bcpl",
    arguments: &[
        FILES,
        Argument {
            name: "check",
            form: Form::Flag,
            constraint: Constraint::Without(&["in-place"]),
            help: "Print the names of the files that aren't laid out, and write nothing",
        },
        Argument {
            name: "in-place",
            form: Form::Flag,
            constraint: Constraint::Free,
            help: "Overwrite each FILE with its layout",
        },
        Argument {
            name: "width",
            form: Form::Number("N"),
            constraint: Constraint::Free,
            help: "Break lines that have more than N columns, where that is possible [default: 100]",
        },
        KEEP_LINKS,
        PLACES,
        MESSAGES,
    ],
};

/// The commands on sources. Help lists the three tables in this order.
const ON_SOURCES: [CommandSpec; 3] = [BUILD, SHOW, EXPLAIN];

/// The commands on texts.
const ON_TEXTS: [CommandSpec; 3] = [LIST, ASSEMBLE, RUN];

/// The other commands.
const OTHERS: [CommandSpec; 8] = [GO, INTERPRET, DEBUG, TAME, CHECK, CONVERT, FORMAT, LSP];

/// Adds the commands on sources.
fn with_source_commands<'a>(
    alloc: Global,
    program: Command<'a>,
    numbers: Numbers,
) -> Result<Command<'a>, AllocError> {
    with_commands(alloc, program, &ON_SOURCES, numbers)
}

/// Adds the commands on texts.
fn with_text_commands<'a>(
    alloc: Global,
    program: Command<'a>,
    numbers: Numbers,
) -> Result<Command<'a>, AllocError> {
    with_commands(alloc, program, &ON_TEXTS, numbers)
}

/// Adds the other commands.
fn with_other_commands<'a>(
    alloc: Global,
    program: Command<'a>,
    numbers: Numbers,
) -> Result<Command<'a>, AllocError> {
    with_commands(alloc, program, &OTHERS, numbers)
}

/// The command-line parser for the program. Fails only if an allocation fails.
pub fn program<'a>(alloc: Global, numbers: Numbers) -> Result<Command<'a>, AllocError> {
    let program = Command::new(alloc, "bcpl")
        .about("Compiles BCPL to INTCODE; assembles, links and runs INTCODE")
        .after_help(
            "Without arguments, runs the INTCODE text on standard input for at most 1,000,000 instructions, with an empty\n\
             input. `bcpl COMMAND --help` describes a command.\n\n\
             The environment variable BCPL_MESSAGES=json prints messages as JSON, one object a line, like --messages json.\n\
             The environment variable BCPL_PLACES says when refusals are explained after their first line: always, never\n\
             or auto (on a terminal). The option --places takes precedence.\n\n\
             Exit status: 0 success, 1 refused (with a line on standard error), 2 a run that ended in another way than\n\
             by finishing, 3 invalid arguments.\n\n\
             Examples:\n  bcpl go hello.bcpl\n  bcpl build --out hello.int hello.bcpl\n  bcpl run --steps 1000000 hello.int",
        )
        .version(VERSION)
        .no_binary_name(true)
        .subcommand_required(true)
        .bin_name("bcpl")?;
    let program = with_source_commands(alloc, program, numbers)?;
    let program = with_text_commands(alloc, program, numbers)?;
    with_other_commands(alloc, program, numbers)
}
