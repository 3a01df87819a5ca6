//! Messages where a certificate doesn't match the texts: where its code isn't in their segments.

use crate::certificate::{Lined, lines_of};
use crate::placed::{Placed, Text, is_byte};
use crate::report::{Fill, Report};
use crate::text_items::item_at;
use bc_cert_defs::{Judged, Mismatch, Verdict};
use bc_rules_defs::Piece;
use bc_text_items::{Item, Segment};
use bc_word::Memory;
use std::alloc::Global;

/// A number of a certificate as an index; the greatest index if it is 2^32 or more.
fn as_index(number: u64) -> usize {
    if number < 4_294_967_296 {
        number as usize
    } else {
        usize::MAX
    }
}

/// How many items a code takes.
fn extent(code: &[Piece]) -> u64 {
    let mut count: u64 = 0;
    for piece in code {
        count = count.saturating_add(match piece {
            Piece::Item(_) => 1,
            Piece::Body(items) => *items,
        });
    }
    count
}

/// A difference between items and code.
#[derive(Clone, Copy)]
struct Other<'a> {
    /// The index of the piece in the code.
    piece: usize,
    /// The index of the item in the segment.
    item: usize,
    /// The item that the code has there.
    wanted: &'a Item,
}

/// Whether the item at an index is this one.
fn has(items: &[Item], at: usize, wanted: &Item) -> bool {
    match items.get(at) {
        Some(found) => *found == *wanted,
        None => false,
    }
}

/// The first difference between code and items.
fn difference<'a>(judged: &'a Judged, items: &[Item]) -> Option<Other<'a>> {
    let mut at = as_index(judged.item);
    for (index, piece) in judged.code.iter().enumerate() {
        match piece {
            Piece::Body(count) => at = at.saturating_add(as_index(*count)),
            Piece::Item(item) => {
                if !has(items, at, item) {
                    return Some(Other {
                        piece: index,
                        item: at,
                        wanted: item,
                    });
                }
                at = at.saturating_add(1);
            }
        }
    }
    None
}

/// A certificate with its lines, and the number of an entry.
#[derive(Clone, Copy)]
struct At<'a> {
    lined: Lined<'a>,
    entry: u64,
}

impl<'a> At<'a> {
    /// The `E` line of the entry.
    fn head(&self) -> Option<Placed<'a>> {
        let index = self.lined.entry_index(self.entry)?;
        Some(self.lined.place(index))
    }

    /// The piece with this index on the entry's code line.
    fn piece(&self, piece: usize) -> Option<Placed<'a>> {
        let first = self.lined.entry_index(self.entry)?;
        for index in first..self.lined.lines.len() {
            if is_byte(self.lined.line(index), 0, b'C') {
                return Some(self.lined.field(index, piece.saturating_add(1)));
            }
        }
        None
    }
}

/// Adds the item of the text that differs from the code.
fn add_item(
    report: &mut Report,
    placed: Placed<'_>,
    other: Other<'_>,
    segment: usize,
    entry: u64,
) -> Result<(), Memory> {
    report.place(
        placed,
        "item {} of segment {} should be {} by entry {} of the certificate",
        &[
            Fill::Number(other.item as u128),
            Fill::Number(segment as u128),
            Fill::Item(other.wanted),
            Fill::Number(u128::from(entry)),
        ],
    )
}

/// Adds the piece of the certificate that isn't in the text, and what to do.
fn add_piece(report: &mut Report, piece: Option<Placed<'_>>) -> Result<(), Memory> {
    if let Some(placed) = piece {
        report.note(placed, "the certificate says so here")?;
    }
    report.help(
        "build both again in one build; give the texts in the order in which the certificate numbers their segments",
    )
}

/// Describes code that isn't in the text.
fn code_differs(
    report: &mut Report,
    at: At<'_>,
    judged: &Judged,
    texts: &[Text<'_>],
    items: &[Item],
) -> Result<(), Memory> {
    let Some(other) = difference(judged, items) else {
        return Ok(())
    };
    let segment = as_index(judged.segment);
    if let Some(placed) = item_at(texts, segment, other.item) {
        add_item(report, placed, other, segment, at.entry)?;
    }
    add_piece(report, at.piece(other.piece))
}

/// The help where an entry's code is in no segment.
const ALL_TEXTS: &str = "name all texts of the build, and no others";

/// Describes an entry whose code extends past its segment, which has `items` items.
fn beyond(
    report: &mut Report,
    placed: Placed<'_>,
    judged: &Judged,
    items: usize,
) -> Result<(), Memory> {
    let count = extent(judged.code.as_slice());
    report.fault(
        placed,
        "the code of this entry takes {} items from item {} on, but segment {} has only {}",
        &[
            Fill::Number(u128::from(count)),
            Fill::Number(u128::from(judged.item)),
            Fill::Number(u128::from(judged.segment)),
            Fill::Number(items as u128),
        ],
        ALL_TEXTS,
    )
}

/// Describes an entry whose segment doesn't exist; there are `count` segments.
fn elsewhere(
    report: &mut Report,
    placed: Placed<'_>,
    segment: u64,
    count: usize,
) -> Result<(), Memory> {
    report.fault(
        placed,
        "this entry is for segment {}, counted from 0, but the number of segments is {}",
        &[
            Fill::Number(u128::from(segment)),
            Fill::Number(count as u128),
        ],
        ALL_TEXTS,
    )
}

/// Describes an entry whose code is in no segment.
fn outside(
    report: &mut Report,
    placed: Placed<'_>,
    judged: &Judged,
    segments: &[Segment],
) -> Result<(), Memory> {
    match segments.get(as_index(judged.segment)) {
        Some(found) => beyond(report, placed, judged, found.items().len()),
        None => elsewhere(report, placed, judged.segment, segments.len()),
    }
}

/// Describes an entry that is out of order.
fn disordered(report: &mut Report, at: At<'_>) -> Result<(), Memory> {
    if let Some(placed) = at.head() {
        let sentence =
            "this entry is out of order: its segment and item come before those of the previous entry";
        report.place(placed, sentence, &[])?;
    }
    let before = At {
        lined: at.lined,
        entry: at.entry.saturating_sub(1),
    };
    match before.head() {
        Some(placed) => report.note(placed, "the previous entry"),
        None => Ok(()),
    }
}

/// Describes a mismatch at this entry. Adds nothing if nothing more is known.
fn add_mismatch(
    report: &mut Report,
    at: At<'_>,
    judged: &Judged,
    compared: (&[Text<'_>], &[Segment]),
    mismatch: Mismatch,
) -> Result<(), Memory> {
    let (texts, segments) = compared;
    match mismatch {
        Mismatch::CodeDiffers(_) => match segments.get(as_index(judged.segment)) {
            Some(found) => code_differs(report, at, judged, texts, found.items()),
            None => Ok(()),
        },
        Mismatch::OutsideText(_) => match at.head() {
            Some(placed) => outside(report, placed, judged, segments),
            None => Ok(()),
        },
        Mismatch::Order(_) => disordered(report, at),
    }
}

/// Describes a mismatch of a certificate.
fn add_entry(
    report: &mut Report,
    certificate: Text<'_>,
    verdict: &Verdict,
    compared: (&[Text<'_>], &[Segment]),
    mismatch: Mismatch,
) -> Result<(), Memory> {
    let entry = match mismatch {
        Mismatch::CodeDiffers(entry) | Mismatch::OutsideText(entry) | Mismatch::Order(entry) =>
            entry,
    };
    let lines = lines_of(report.alloc(), certificate.bytes)?;
    let lined = Lined {
        text: certificate,
        lines: lines.as_slice(),
    };
    match verdict.entries.get(as_index(entry)) {
        Some(judged) => add_mismatch(report, At { lined, entry }, judged, compared, mismatch),
        None => Ok(()),
    }
}

/// The lines on a certificate whose code isn't in the texts, which have these segments: what the text has, and what the
/// certificate says. Returns `Memory` if an allocation fails.
pub fn against_lines(
    alloc: Global,
    certificate: Text<'_>,
    verdict: &Verdict,
    compared: (&[Text<'_>], &[Segment]),
    mismatch: Mismatch,
) -> Result<String, Memory> {
    let mut report = Report::new(alloc);
    add_entry(&mut report, certificate, verdict, compared, mismatch)?;
    Ok(report.into_text())
}
