//! A report while it is written: as Markdown and as a page of HTML.

use crate::parts::{TO_BODY, TO_END, TO_TITLE};
use bc_word::Memory;
use std::alloc::Global;

/// A text while it is written. A failed allocation is remembered.
#[derive(Drop)]
struct Text {
    text: String,
    is_refused: bool,
}

impl Text {
    /// An empty text.
    fn new(alloc: Global) -> Text {
        Text {
            text: String::new(alloc),
            is_refused: false,
        }
    }

    /// Appends this.
    fn push_str(&mut self, text: &str) {
        if self.text.push_str(text).is_err() {
            self.is_refused = true;
        }
    }

    /// Appends a part of the template.
    fn template(&mut self, texts: &[&str]) {
        for text in texts {
            self.push_str(text);
        }
    }

    /// Appends a character.
    fn push(&mut self, character: char) {
        if self.text.push(character).is_err() {
            self.is_refused = true;
        }
    }

    /// Appends a number.
    fn number(&mut self, number: usize) {
        if write!(self.text, "{number}").is_err() {
            self.is_refused = true;
        }
    }
}

/// A report in both forms. A failed allocation is remembered until the report is finished.
pub struct Page {
    markdown: Text,
    html: Text,
}

impl Drop for Page {
    fn drop(self) {
        let Page {
            markdown: _,
            html: _,
        } = self;
    }
}

/// A finished report in both forms.
#[derive(Drop)]
pub struct Pages {
    pub markdown: String,
    pub html: String,
}

/// A part of a line.
#[derive(Clone, Copy)]
pub enum Part<'p> {
    Text(&'p str),
    /// As in a source.
    Code(&'p str),
    /// A line of a file of the result.
    Line(&'p str, usize),
    Number(usize),
}

/// Adds text to Markdown, with the signs of its markup escaped.
fn add_plain(markdown: &mut Text, text: &str) {
    for character in text.chars() {
        if "\\`*_[]<>|#".contains(character) {
            markdown.push('\\');
        }
        markdown.push(character);
    }
}

/// Adds text to HTML, with the signs of its markup escaped.
fn add_escaped(html: &mut Text, text: &str) {
    for character in text.chars() {
        match character {
            '<' => html.push_str("&lt;"),
            '>' => html.push_str("&gt;"),
            '&' => html.push_str("&amp;"),
            '"' => html.push_str("&quot;"),
            _ => html.push(character),
        }
    }
}

/// Adds the name of a file as the target of a link. `./` keeps a name with a colon from being read as a scheme.
fn add_target(text: &mut Text, name: &str) {
    text.push_str("./");
    for character in name.chars() {
        match character {
            ' ' => text.push_str("%20"),
            '"' => text.push_str("%22"),
            '#' => text.push_str("%23"),
            '%' => text.push_str("%25"),
            '&' => text.push_str("%26"),
            '(' => text.push_str("%28"),
            ')' => text.push_str("%29"),
            '<' => text.push_str("%3C"),
            '>' => text.push_str("%3E"),
            '?' => text.push_str("%3F"),
            _ => text.push(character),
        }
    }
}

/// Adds text in code to Markdown. A bar would end a cell of a table.
fn add_code(markdown: &mut Text, text: &str) {
    let (open, close) = if text.contains('`') {
        ("`` ", " ``")
    } else {
        ("`", "`")
    };
    markdown.push_str(open);
    for character in text.chars() {
        if character == '|' {
            markdown.push('\\');
        }
        markdown.push(character);
    }
    markdown.push_str(close);
}

/// Adds a link to a line of a file to Markdown.
fn add_link(markdown: &mut Text, file: &str, line: usize) {
    markdown.push('[');
    add_plain(markdown, file);
    markdown.push(':');
    markdown.number(line);
    markdown.push_str("](");
    add_target(markdown, file);
    markdown.push_str("#L");
    markdown.number(line);
    markdown.push(')');
}

/// Adds a link to a line of a file to HTML.
fn add_anchor(html: &mut Text, file: &str, line: usize) {
    html.push_str("<a href=\"");
    add_target(html, file);
    html.push_str("#L");
    html.number(line);
    html.push_str("\">");
    add_escaped(html, file);
    html.push(':');
    html.number(line);
    html.push_str("</a>");
}

/// Adds a tag that begins like this and goes on with a number.
fn add_tag(html: &mut Text, beginning: &str, number: usize) {
    html.push_str(beginning);
    html.number(number);
    html.push('>');
}

impl Page {
    /// A report with this title.
    pub fn new(alloc: Global, title: &str) -> Page {
        let mut page = Page {
            markdown: Text::new(alloc),
            html: Text::new(alloc),
        };
        page.html.template(TO_TITLE);
        add_escaped(&mut page.html, title);
        page.html.template(TO_BODY);
        page.heading(1, &[Part::Text(title)]);
        page
    }

    /// Adds a part of a line.
    fn part(&mut self, part: Part<'_>) {
        match part {
            Part::Text(text) => self.plain(text),
            Part::Code(text) => self.code(text),
            Part::Line(file, line) => self.line(file, line),
            Part::Number(number) => self.number(number),
        }
    }

    /// Adds text.
    fn plain(&mut self, text: &str) {
        add_plain(&mut self.markdown, text);
        add_escaped(&mut self.html, text);
    }

    /// Adds text as in a source.
    fn code(&mut self, text: &str) {
        add_code(&mut self.markdown, text);
        self.html.push_str("<code>");
        add_escaped(&mut self.html, text);
        self.html.push_str("</code>");
    }

    /// Adds a number.
    fn number(&mut self, number: usize) {
        self.markdown.number(number);
        self.html.number(number);
    }

    /// Adds a link to a line of a file.
    fn line(&mut self, file: &str, line: usize) {
        add_link(&mut self.markdown, file, line);
        add_anchor(&mut self.html, file, line);
    }

    /// Adds these parts.
    fn parts(&mut self, parts: &[Part<'_>]) {
        for part in parts {
            self.part(*part);
        }
    }

    /// Adds a heading of this level.
    pub fn heading(&mut self, level: usize, parts: &[Part<'_>]) {
        for _ in 0..level {
            self.markdown.push('#');
        }
        self.markdown.push(' ');
        add_tag(&mut self.html, "<h", level);
        self.parts(parts);
        self.markdown.push_str("\n\n");
        add_tag(&mut self.html, "</h", level);
        self.html.push('\n');
    }

    /// Adds a paragraph.
    pub fn paragraph(&mut self, parts: &[Part<'_>]) {
        self.html.push_str("<p>");
        self.parts(parts);
        self.markdown.push_str("\n\n");
        self.html.push_str("</p>\n");
    }

    /// Adds the heading of a column.
    fn column(&mut self, column: &str) {
        self.markdown.push_str("| ");
        add_plain(&mut self.markdown, column);
        self.markdown.push(' ');
        self.html.push_str("<th>");
        add_escaped(&mut self.html, column);
        self.html.push_str("</th>");
    }

    /// Begins a table with these columns.
    pub fn table(&mut self, columns: &[&str]) {
        self.html.push_str("<table><tr>");
        for column in columns {
            self.column(column);
        }
        self.markdown.push_str("|\n");
        for _ in columns {
            self.markdown.push_str("|---");
        }
        self.markdown.push_str("|\n");
        self.html.push_str("</tr>\n");
    }

    /// Adds a cell of a row.
    fn cell(&mut self, cell: Part<'_>) {
        self.markdown.push_str("| ");
        self.html.push_str("<td>");
        self.part(cell);
        self.markdown.push(' ');
        self.html.push_str("</td>");
    }

    /// Adds a row, with one part in each column.
    pub fn row(&mut self, cells: &[Part<'_>]) {
        self.html.push_str("<tr>");
        for cell in cells {
            self.cell(*cell);
        }
        self.markdown.push_str("|\n");
        self.html.push_str("</tr>\n");
    }

    /// Ends a table.
    pub fn end_table(&mut self) {
        self.markdown.push('\n');
        self.html.push_str("</table>\n");
    }

    /// Adds lines as they are.
    pub fn lines(&mut self, text: &str) {
        self.html.push_str("<pre>");
        for line in text.lines() {
            self.markdown.push_str("    ");
            self.markdown.push_str(line);
            self.markdown.push('\n');
            add_escaped(&mut self.html, line);
            self.html.push('\n');
        }
        self.markdown.push('\n');
        self.html.push_str("</pre>\n");
    }

    /// The finished report.
    ///
    /// # Errors
    ///
    /// `Memory` if an allocation failed.
    pub fn finish(self) -> Result<Pages, Memory> {
        let Page { markdown, mut html } = self;
        html.template(TO_END);
        if markdown.is_refused || html.is_refused {
            return Err(Memory);
        }
        Ok(Pages {
            markdown: markdown.text,
            html: html.text,
        })
    }
}
