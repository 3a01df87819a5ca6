//! The parts of a page between what the program fills in. Written by tools/pages from pages/project and pages/shared; edit those.

/// The page up to its title.
pub const TO_TITLE: &[&str] = &[
    "<!DOCTYPE html>\n<html lang=\"en\"><head><meta charset=\"utf-8\"><meta name=\"viewport\" content=\"width=device-width\">\n<style>\n:root {\ncolor-scheme: light dark;\n--ground: light-dark(#ffffff, #13171b); --panel: light-dark(#f4f6f8, #1b2127); --text: light-dark(#1a1f24, #e5e9ed);\n--quiet: light-dark(#56616c, #9ba7b3); --line: light-dark(#d8dee4, #303943); --edge: light-dark(#7a8794, #6f7d8a);\n--accent: light-dark(#0a58a8, #6cbcff); --accent-text: light-dark(#ffffff, #0b1c2c); --chosen: light-dark(#e3eefa, #17344f);\n--changed: light-dark(#fff0c2, #4a3a08); --warning: light-dark(#8f4a00, #ffb757); --error: light-dark(#b42318, #ff9a8d);\n--word: light-dark(#7a1f8a, #d9a1ec); --string: light-dark(#1a6b3c, #8fd3a8); --comment: light-dark(#5c6873, #97a3af);\n--mono: ui-monospace, \"SF Mono\", \"Cascadia Mono\", \"DejaVu Sans Mono\", Menlo, Consolas, monospace;\nbackground: var(--ground); color: var(--text); font-family: system-ui, \"DejaVu Sans\", sans-serif;\n}\nbody { font-size: 16px; line-height: 1.5; max-width: 60em; margin: 1em auto; padding: 0 1em; }\na { color: var(--accent); }\ncode, pre { font-family: var(--mono); }\ntable { display: block; overflow-x: auto; border-collapse: collapse; margin: 1em 0; }\nth, td { text-align: left; vertical-align: top; padding: 0.2em 0.8em 0.2em 0; border-bottom: 1px solid var(--line); }\npre { overflow-x: auto; padding: 0.5em; border-left: 3px solid var(--edge); }\n</style>\n<title>",
];

/// The page up to its body.
pub const TO_BODY: &[&str] = &["</title></head><body>\n"];

/// The page from its last hole on.
pub const TO_END: &[&str] = &["</body></html>\n"];
