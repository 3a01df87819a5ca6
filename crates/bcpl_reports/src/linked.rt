//! Messages for segments that can't be linked.

use crate::placed::{Placed, Text};
use crate::report::{Fill, Report};
use crate::text_items::item_at;
use bc_link::LinkError;
use bc_text_items::{Base, Item, Segment};
use bc_word::Memory;
use bcpl_places::{SegmentSize, library_name, segment_words, too_large};
use std::alloc::Global;

/// Whether an item refers to a label.
fn speaks_of(item: &Item, wanted: u16) -> bool {
    match item {
        Item::DataLabel(label) | Item::Global { label, .. } => label.get() == wanted,
        Item::Operation {
            base: Base::Label,
            number,
            ..
        } => number.get() == wanted,
        _ => false,
    }
}

/// Whether an item sets a label.
fn sets(item: &Item, wanted: u16) -> bool {
    match item {
        Item::Label(label) => label.get() == wanted,
        _ => false,
    }
}

/// The item with this index of this segment. The primitives are segment 0, and are in no text.
fn place_of<'a>(texts: &[Text<'a>], segment: usize, index: usize) -> Option<Placed<'a>> {
    if segment == 0 {
        return None;
    }
    item_at(texts, segment - 1, index)
}

/// The index of the first item of a segment that refers to a label.
fn first_speaking(segment: &Segment, label: u16) -> Option<usize> {
    for (index, item) in segment.items().iter().enumerate() {
        if speaks_of(item, label) {
            return Some(index);
        }
    }
    None
}

/// The first item of a segment that refers to a label.
fn spoken_at<'a>(
    texts: &[Text<'a>],
    segments: &[Segment],
    segment: usize,
    label: u16,
) -> Option<Placed<'a>> {
    let index = first_speaking(segments.get(segment)?, label)?;
    place_of(texts, segment, index)
}

/// Describes a label that is never set.
fn label_unset(report: &mut Report, placed: Placed<'_>, label: u16) -> Result<(), Memory> {
    report.fault(
        placed,
        "the label {} is not set in this segment",
        &[Fill::Number(u128::from(label))],
        "each segment has its own labels; use a global to reach what another segment has",
    )
}

/// The index of the item that sets a label for the `time`th time, counted from 0.
fn nth_setting(segment: &Segment, label: u16, time: usize) -> Option<usize> {
    let mut left = time;
    for (index, item) in segment.items().iter().enumerate() {
        if sets(item, label) {
            if left == 0 {
                return Some(index);
            }
            left -= 1;
        }
    }
    None
}

/// The item that sets a label for the `time`th time, counted from 0.
fn set_at<'a>(
    texts: &[Text<'a>],
    segments: &[Segment],
    segment: usize,
    label: u16,
    time: usize,
) -> Option<Placed<'a>> {
    let index = nth_setting(segments.get(segment)?, label, time)?;
    place_of(texts, segment, index)
}

/// Describes a label that is set twice.
fn label_twice(
    report: &mut Report,
    first: Placed<'_>,
    second: Placed<'_>,
    label: u16,
) -> Result<(), Memory> {
    report.place(
        second,
        "the label {} is set here again",
        &[Fill::Number(u128::from(label))],
    )?;
    report.note(first, "it is already set here")?;
    report.help("set each label of a segment once; perhaps a Z is missing between two segments")
}

/// Whether an item sets a global.
fn sets_global(item: &Item, wanted: u16) -> bool {
    match item {
        Item::Global { number, .. } => number.get() == wanted,
        _ => false,
    }
}

/// The item that sets a global for the `time`th time, counted from 0: the index of its segment, and its index there.
fn setter(segments: &[Segment], wanted: u16, time: usize) -> Option<(usize, usize)> {
    let mut left = time;
    for (number, segment) in segments.iter().enumerate() {
        for (index, item) in segment.items().iter().enumerate() {
            if sets_global(item, wanted) {
                if left == 0 {
                    return Some((number, index));
                }
                left -= 1;
            }
        }
    }
    None
}

/// The place of the item that sets a global for the `time`th time, counted from 0.
fn global_set_at<'a>(
    texts: &[Text<'a>],
    segments: &[Segment],
    wanted: u16,
    time: usize,
) -> Option<Placed<'a>> {
    let (segment, index) = setter(segments, wanted, time)?;
    place_of(texts, segment, index)
}

/// Adds that a global is set again.
fn set_again(report: &mut Report, placed: Placed<'_>, number: u16) -> Result<(), Memory> {
    let global = Fill::Number(u128::from(number));
    match library_name(number) {
        Some(name) => report.place(
            placed,
            "the global {}, {} of the library, is set here again",
            &[global, Fill::Text(name)],
        ),
        None => report.place(placed, "the global {} is set here again", &[global]),
    }
}

/// Describes a global that is set twice.
fn global_twice(
    report: &mut Report,
    first: Option<Placed<'_>>,
    second: Placed<'_>,
    number: u16,
) -> Result<(), Memory> {
    set_again(report, second, number)?;
    match first {
        Some(placed) => report.note(placed, "it is already set here"),
        None => report.help(
            "the primitives, which come before all texts, set the globals 11 to 18",
        ),
    }
}

/// Appends the name of a segment.
fn add_name(name: &mut Report, texts: &[Text<'_>], segment: usize) -> Result<(), Memory> {
    match place_of(texts, segment, 0) {
        Some(placed) => name.say(
            "{}, segment {} overall",
            &[Fill::Text(placed.text.path), Fill::Number(segment as u128)],
        ),
        None if segment == 0 => name.text("the primitives"),
        None => name.say("segment {}", &[Fill::Number(segment as u128)]),
    }
}

/// A segment's name and size.
fn size_of(
    alloc: Global,
    texts: &[Text<'_>],
    number: usize,
    segment: &Segment,
) -> Result<SegmentSize, Memory> {
    let words = segment_words(alloc, segment.items())?;
    let mut name = Report::new(alloc);
    add_name(&mut name, texts, number)?;
    Ok(SegmentSize {
        name: name.into_text(),
        words,
    })
}

/// The names and sizes of segments.
fn sizes_of(
    alloc: Global,
    texts: &[Text<'_>],
    segments: &[Segment],
) -> Result<Vec<SegmentSize>, Memory> {
    let mut sizes = Vec::new(alloc);
    for (number, segment) in segments.iter().enumerate() {
        sizes.push(size_of(alloc, texts, number, segment)?)?;
    }
    Ok(sizes)
}

/// Describes segments that take too many words.
fn add_sizes(report: &mut Report, texts: &[Text<'_>], segments: &[Segment]) -> Result<(), Memory> {
    let sizes = sizes_of(report.alloc(), texts, segments)?;
    let lines = too_large(report.alloc(), sizes.as_slice())?;
    report.line("{}", &[Fill::Text(lines.as_str())])
}

/// Describes a label that is not set in its segment.
fn add_unset(
    report: &mut Report,
    texts: &[Text<'_>],
    segments: &[Segment],
    segment: usize,
    label: u16,
) -> Result<(), Memory> {
    match spoken_at(texts, segments, segment, label) {
        Some(placed) => label_unset(report, placed, label),
        None => Ok(()),
    }
}

/// Describes a label that is set twice in its segment.
fn add_twice(
    report: &mut Report,
    texts: &[Text<'_>],
    segments: &[Segment],
    segment: usize,
    label: u16,
) -> Result<(), Memory> {
    let first = set_at(texts, segments, segment, label, 0);
    let second = set_at(texts, segments, segment, label, 1);
    match (first, second) {
        (Some(first), Some(second)) => label_twice(report, first, second, label),
        _ => Ok(()),
    }
}

/// Describes a global that is set twice.
fn add_global_twice(
    report: &mut Report,
    texts: &[Text<'_>],
    segments: &[Segment],
    number: u16,
) -> Result<(), Memory> {
    let first = global_set_at(texts, segments, number, 0);
    match global_set_at(texts, segments, number, 1) {
        Some(second) => global_twice(report, first, second, number),
        None => Ok(()),
    }
}

/// Describes an error of the linker. Adds nothing if nothing more is known.
fn add_fault(
    report: &mut Report,
    texts: &[Text<'_>],
    segments: &[Segment],
    fault: LinkError,
) -> Result<(), Memory> {
    match fault {
        LinkError::LabelUnset(segment, label) => {
            add_unset(report, texts, segments, segment, label.get())
        }
        LinkError::LabelTwice(segment, label) => {
            add_twice(report, texts, segments, segment, label.get())
        }
        LinkError::GlobalTwice(number) => add_global_twice(report, texts, segments, number.get()),
        LinkError::TooLarge => add_sizes(report, texts, segments),
        LinkError::Memory => Ok(()),
    }
}

/// The lines on segments that can't be linked: the item in its text, and what it collides with. The segments are the
/// primitives followed by those of the texts. Empty if nothing more is known. Returns `Memory` if an allocation fails.
pub fn link_lines(
    alloc: Global,
    texts: &[Text<'_>],
    segments: &[Segment],
    fault: LinkError,
) -> Result<String, Memory> {
    let mut report = Report::new(alloc);
    add_fault(&mut report, texts, segments, fault)?;
    Ok(report.into_text())
}
