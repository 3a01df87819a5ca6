//! Messages for runs that ended otherwise than by finishing.

use crate::instruction::instruction;
use crate::placed::{Placed, Text};
use crate::report::{Fill, Report};
use crate::text_items::item_at;
use bc_machine_defs::{End, Image};
use bc_text_items::{Item, Segment};
use bc_word::Memory;
use bcpl_places::{addresses, library_name};
use std::alloc::Global;

/// The global that a run calls first, START.
const START: u16 = 1;

/// The state of a run when it ended.
#[derive(Clone, Copy)]
pub struct Stop {
    /// How it ended.
    pub end: End,
    /// The address of the next instruction.
    pub address: u16,
    /// The word at that address, and the one after it.
    pub words: (u16, u16),
    /// The limit on its instructions.
    pub steps: u64,
}

/// What is at an address: the segment, the item, and the nearest label and routine before it.
#[derive(Clone, Copy)]
struct Spot {
    segment: usize,
    item: usize,
    /// A label, and its distance in words.
    label: Option<(u16, usize)>,
    /// The number of a global, and the distance in words from the beginning of its routine.
    routine: Option<(u16, usize)>,
}

/// The nearer one of two that are before an address.
fn nearer(best: Option<(u16, usize)>, number: u16, distance: usize) -> Option<(u16, usize)> {
    match best {
        Some((_, least)) if least <= distance => best,
        _ => Some((number, distance)),
    }
}

/// The address of a label among these items.
fn label_address(items: &[Item], addresses: &[usize], wanted: u16) -> Option<usize> {
    for (index, item) in items.iter().enumerate() {
        if let Item::Label(label) = item {
            if label.get() == wanted {
                return addresses.get(index).copied();
            }
        }
    }
    None
}

/// The number of the global that an item sets, and the address of its routine.
fn routine_of(item: &Item, items: &[Item], addresses: &[usize]) -> Option<(u16, usize)> {
    match item {
        Item::Global { number, label } => {
            let begins = label_address(items, addresses, label.get())?;
            Some((number.get(), begins))
        }
        _ => None,
    }
}

impl Spot {
    /// Records an item that is `distance` words before the spot's address, or at it.
    fn pass(&mut self, index: usize, item: &Item, distance: usize) {
        match item {
            Item::Label(label) => self.label = nearer(self.label, label.get(), distance),
            Item::Global { .. } => {}
            _ => self.item = index,
        }
    }
}

/// The spot of an address in a segment whose items have these addresses.
fn spot_in(segment: usize, items: &[Item], addresses: &[usize], address: usize) -> Spot {
    let mut spot = Spot {
        segment,
        item: 0,
        label: None,
        routine: None,
    };
    for (index, item) in items.iter().enumerate() {
        let stands = addresses.get(index).copied().unwrap_or(usize::MAX);
        if stands <= address {
            spot.pass(index, item, address - stands);
        }
        if let Some((global, begins)) = routine_of(item, items, addresses) {
            if begins <= address {
                spot.routine = nearer(spot.routine, global, address - begins);
            }
        }
    }
    spot
}

/// The spot of an address, if it is in this segment, which begins at `start`.
fn spot_of(
    alloc: Global,
    number: usize,
    start: usize,
    items: &[Item],
    address: usize,
) -> Result<Option<Spot>, Memory> {
    let (addresses, following) = addresses(alloc, start, items)?;
    if start <= address && address < following {
        Ok(Some(spot_in(number, items, addresses.as_slice(), address)))
    } else {
        Ok(None)
    }
}

/// The spot of an address; `None` if it is in no segment.
fn spot_at(
    alloc: Global,
    segments: &[Segment],
    image: &Image,
    address: usize,
) -> Result<Option<Spot>, Memory> {
    let starts = image.places.as_slice();
    for (number, segment) in segments.iter().enumerate() {
        if let Some(place) = starts.get(number) {
            let start = usize::from(place.start.get());
            let spot = spot_of(alloc, number, start, segment.items(), address)?;
            if spot.is_some() {
                return Ok(spot);
            }
        }
    }
    Ok(None)
}

/// The sentence on an address, with a `{}` for it, and perhaps one for the number of a global.
fn address_sentence(image: &Image, spot: Option<Spot>, address: u16) -> &'static str {
    match spot {
        Some(spot) if spot.segment == 0 => "the address {}, in the primitives",
        Some(_) => "the address {}",
        None if address >= image.stack_base.get() => {
            "the address {}, in the stack, where there is no code"
        }
        None if address >= 8 && address < 520 => {
            "the address {}, the cell of the global {}, where there is no code"
        }
        None => "the address {}, before all code",
    }
}

/// Adds an address by its sentence.
fn add_address(report: &mut Report, address: u16, sentence: &str) -> Result<(), Memory> {
    let global = address.saturating_sub(8);
    report.say(
        sentence,
        &[
            Fill::Number(u128::from(address)),
            Fill::Number(u128::from(global)),
        ],
    )
}

/// Adds how a run ended, up to its address.
fn add_end(report: &mut Report, stop: &Stop) -> Result<(), Memory> {
    match stop.end {
        End::ZeroDivide => report.text("a division or a remainder by 0, at "),
        End::BadInstruction(_) => report.say(
            "the word {} is not an instruction, at ",
            &[Fill::Number(u128::from(stop.words.0))],
        ),
        End::BudgetSpent => report.say(
            "{} instructions were executed; the next one is at ",
            &[Fill::Number(u128::from(stop.steps))],
        ),
        End::Device => report.text("an input or an output failed, at "),
        End::Finished => Ok(()),
    }
}

/// Adds the instruction as which the word at the end of a run would be decoded.
fn add_instruction(report: &mut Report, words: (u16, u16)) -> Result<(), Memory> {
    let (word, following) = words;
    report.say(": it decodes as {}{}{}", &instruction(word, following))
}

/// Adds how a run ended, with the sentence on its address.
fn add_sentence(report: &mut Report, stop: &Stop, address: &str) -> Result<(), Memory> {
    add_end(report, stop)?;
    match stop.end {
        End::Finished => Ok(()),
        End::BadInstruction(_) => add_bad_instruction(report, stop, address),
        _ => add_address(report, stop.address, address),
    }
}

/// Adds the address of a word that isn't an instruction, and how the word would be decoded.
fn add_bad_instruction(report: &mut Report, stop: &Stop, address: &str) -> Result<(), Memory> {
    add_address(report, stop.address, address)?;
    add_instruction(report, stop.words)
}

/// What to do about the end of a run.
fn help_for(stop: &Stop, is_code: bool) -> Option<&'static str> {
    match stop.end {
        End::BudgetSpent if is_code => Some(
            "allow more with --steps, or look for an endless loop or endless calls; bcpl interpret FILE.. shows the line",
        ),
        End::BudgetSpent => Some(
            "no source has code there: a return address or a routine's cell was overwritten; bcpl interpret FILE.. shows where",
        ),
        End::BadInstruction(_) if is_code => Some(
            "code was overwritten through an index outside its vector, or a jump went to where no instruction begins; bcpl interpret FILE.. shows the line",
        ),
        End::BadInstruction(_) => Some(
            "something was called or jumped to that is not a routine, perhaps a global or a variable that was never set; bcpl interpret FILE.. shows the line",
        ),
        End::ZeroDivide => Some(
            "test the divisor before the division; bcpl interpret FILE.. shows the line",
        ),
        End::Device => Some("bcpl interpret FILE.. shows the line"),
        End::Finished => None,
    }
}

/// The unit for this number of words.
fn unit(words: usize) -> Fill<'static> {
    Fill::Text(if words == 1 { "word" } else { "words" })
}

/// Adds the nearest routine before a spot.
fn add_routine(report: &mut Report, global: u16, distance: usize) -> Result<(), Memory> {
    let (comma, name) = match library_name(global) {
        Some(name) => (", ", name),
        None => ("", ""),
    };
    report.line(
        "  the nearest routine of a global before it is that of global {}{}{}, which begins {} {} earlier",
        &[
            Fill::Number(u128::from(global)),
            Fill::Text(comma),
            Fill::Text(name),
            Fill::Number(distance as u128),
            unit(distance),
        ],
    )
}

/// Adds the nearest label before a spot.
fn add_label(report: &mut Report, label: u16, distance: usize) -> Result<(), Memory> {
    report.line(
        "  the nearest label before it is {}, {} {} earlier",
        &[
            Fill::Number(u128::from(label)),
            Fill::Number(distance as u128),
            unit(distance),
        ],
    )
}

/// Adds the nearest routine and label before a spot.
fn add_nearest(report: &mut Report, spot: Spot) -> Result<(), Memory> {
    if let Some((global, distance)) = spot.routine {
        add_routine(report, global, distance)?;
    }
    match spot.label {
        Some((label, distance)) => add_label(report, label, distance),
        None => Ok(()),
    }
}

/// The place in its text of the item at which a run ended.
fn place_of<'a>(texts: &[Text<'a>], spot: Option<Spot>) -> Option<Placed<'a>> {
    let spot = spot?;
    if spot.segment == 0 {
        return None;
    }
    item_at(texts, spot.segment - 1, spot.item)
}

/// Adds how a run ended: at a place of its text, or as a line if there is none.
fn add_ended(
    report: &mut Report,
    stop: &Stop,
    address: &str,
    placed: Option<Placed<'_>>,
) -> Result<(), Memory> {
    if let Some(placed) = placed {
        report.begin_place(placed)?;
    }
    add_sentence(report, stop, address)?;
    match placed {
        Some(placed) => report.end_place(placed),
        None => report.text("\n"),
    }
}

/// Adds the nearest routine and label, and what to do.
fn add_advice(report: &mut Report, stop: &Stop, spot: Option<Spot>) -> Result<(), Memory> {
    if let Some(spot) = spot {
        add_nearest(report, spot)?;
    }
    match help_for(stop, spot.is_some()) {
        Some(help) => report.help(help),
        None => Ok(()),
    }
}

/// Whether an item of these segments sets the global that a run calls first.
fn sets_start(segments: &[Segment]) -> bool {
    segments.iter().any(|segment| {
        segment.items().iter().any(
            |item| matches!(item, Item::Global { number, .. } if number.get() == START),
        )
    })
}

/// Adds that a run had no START, and what to do.
fn add_no_start(report: &mut Report) -> Result<(), Memory> {
    report.text("  nothing sets global 1, so there is no START to run\n")?;
    report.help(
        "a run begins with START, in upper case; write GET \"LIBHDR\" and LET START() BE .., or add the text that has it",
    )
}

/// Adds how a run ended at this spot.
fn add_stop(
    report: &mut Report,
    texts: &[Text<'_>],
    image: &Image,
    stop: &Stop,
    spot: Option<Spot>,
) -> Result<(), Memory> {
    let address = address_sentence(image, spot, stop.address);
    add_ended(report, stop, address, place_of(texts, spot))
}

/// The lines on a run that ended otherwise than by finishing: the item at which it ended, in its text, and the routine;
/// or that there is no START, if no segment sets global 1. The segments are the primitives followed by those of the
/// texts, and the image is theirs. Returns `Memory` if an allocation fails.
pub fn ended_lines(
    alloc: Global,
    texts: &[Text<'_>],
    segments: &[Segment],
    image: &Image,
    stop: &Stop,
) -> Result<String, Memory> {
    let spot = spot_at(alloc, segments, image, usize::from(stop.address))?;
    let mut report = Report::new(alloc);
    add_stop(&mut report, texts, image, stop, spot)?;
    if sets_start(segments) {
        add_advice(&mut report, stop, spot)?;
    } else {
        add_no_start(&mut report)?;
    }
    Ok(report.into_text())
}
