//! Composes the message for a wild access: the sentence, its place, and the calls that led there.

use crate::calls::{Call, Parameter};
use crate::extent::{Extent, only_reading};
use crate::owner::{Owner, OwnerKind, owner_of};
use crate::placed::{ReadMain, labelled, read};
use crate::sentence::{ByteAccess, WildContext, ending, help, say};
use bc_interpret_pure::Cause;
use bc_interpret_trace::Standing;
use bc_lex::Source;
use bc_lex_tokens::Symbol;
use bc_machine_defs::Image;
use bc_word::Memory;
use bcpl_messages::{Draft, Fill, Message, is_at};
use bcpl_places::Span;
use std::alloc::Global;

/// A program that was built.
#[derive(Clone, Copy)]
pub struct WildProgram<'p, 's> {
    /// All sources.
    pub sources: &'p [Source<'s>],
    /// The indexes of the mains, in the order of their segments.
    pub mains: &'p [usize],
    /// The linked image.
    pub image: &'p Image,
}

/// A wild access.
#[derive(Clone, Copy)]
pub struct Met<'m> {
    /// What happened.
    pub cause: Cause,
    /// The run's place in its newest calls, the newest one first.
    pub standings: &'m [Standing],
    /// How many calls the run was in.
    pub calls: usize,
}

/// Where a run is.
#[derive(Clone, Copy)]
pub struct Stand<'m> {
    /// The run's place in its newest calls, the newest one first.
    pub standings: &'m [Standing],
    /// How many calls the run is in.
    pub calls: usize,
}

/// Where a run is in one call.
#[derive(Drop)]
struct AccessPlace<'s> {
    read: ReadMain<'s>,
    /// The label of the routine.
    label: u64,
    /// The expression, test or assignment that it is at.
    extent: Option<Extent>,
}

impl<'s> AccessPlace<'s> {
    /// The name of the routine.
    fn name(&self) -> Option<&'s [u8]> {
        self.read.text(self.read.sites.label(self.label)?)
    }

    /// The span of that expression, or of the routine's name if it isn't known.
    fn span(&self, sources: &[Source<'_>]) -> Option<Span> {
        match self.extent {
            Some(extent) => self.read.span_of(extent),
            None => self.read.span(sources, self.read.sites.label(self.label)?),
        }
    }

    /// Whether the routine has a vector of this name.
    fn has_vector(&self, name: &[u8]) -> bool {
        for site in &self.read.sites.variables {
            if site.routine == self.label
                && site.cells > 1
                && self.read.text(site.leaf).unwrap_or(b"") == name
            {
                return true;
            }
        }
        false
    }

    /// The first argument of the only call of PUTBYTE, if that is a name.
    fn stored_into(&self) -> Option<&'s [u8]> {
        let call = self.only_call(Some(b"PUTBYTE".as_slice()))?;
        let tokens = self.read.tokens.as_slice();
        let first = call.extent.first.saturating_add(2);
        if is_at(tokens, first.saturating_add(1), Symbol::Comma) {
            Some(tokens.get(first)?.text)
        } else {
            None
        }
    }

    /// Whether the only call of PUTBYTE is given a vector of the routine, and the name with this leaf is another one.
    fn stores_into_other(&self, leaf: u64) -> bool {
        match self.stored_into() {
            Some(given) => {
                self.has_vector(given) && self.read.text(leaf).unwrap_or(b"") != given
            }
            None => false,
        }
    }

    /// The only call of the routine with this name that the run can be at.
    fn only_call(&self, name: Option<&[u8]>) -> Option<Call> {
        self.read.only_call(self.extent?, name?)
    }

    /// The span of the call of the routine with this name.
    fn span_of_call(&self, sources: &[Source<'_>], name: Option<&[u8]>) -> Option<Span> {
        match self.only_call(name) {
            Some(call) => self.read.span_of(call.extent),
            None => self.span(sources),
        }
    }
}

/// Where the run is in this call; `None` if that is a routine of the library which no source has.
fn place_of<'s>(
    draft: &mut Draft,
    program: &WildProgram<'_, 's>,
    standing: &Standing,
) -> Option<AccessPlace<'s>> {
    let called = labelled(program.image, standing.routine)?;
    let main = program.mains.get(called.segment)?;
    let read = read(draft, program.sources, *main)?;
    let root = read.root(called.label, standing);
    let extent = root.and_then(|root| read.extent_of_root(root));
    Some(AccessPlace {
        read,
        label: called.label,
        extent,
    })
}

/// The place of an access, and whether it is exact.
#[derive(Clone, Copy)]
struct Spot {
    span: Option<Span>,
    is_exact: bool,
}

/// An unknown place.
const NOWHERE: Spot = Spot {
    span: None,
    is_exact: true,
};

impl<'s> AccessPlace<'s> {
    /// The name of the variable that an address belongs to, if it is one of this call, which is `back` calls older than
    /// the newest one.
    fn variable(&self, back: usize, owner: Option<&Owner>) -> Option<&'s [u8]> {
        match owner?.kind {
            OwnerKind::Variable { back: of, leaf } if of == back => self.read.text(leaf),
            _ => None,
        }
    }

    /// Where an access is in this call: the only read of its variable, or else the whole expression.
    fn spot(&self, back: usize, owner: Option<&Owner>) -> Spot {
        let Some(extent) = self.extent else {
            return NOWHERE;
        };
        let tokens = self.read.tokens.as_slice();
        let name = self.variable(back, owner);
        let only = name.and_then(|name| only_reading(tokens, extent, name));
        let exact = match only {
            Some(index) => Extent {
                first: index,
                last: index,
            },
            None => extent,
        };
        Spot {
            span: self.read.span_of(exact),
            is_exact: exact.first == exact.last,
        }
    }
}

/// Where an access is, in the newest call whose routine is in a source.
fn spot_of(
    draft: &mut Draft,
    program: &WildProgram<'_, '_>,
    standings: &[Standing],
    owner: Option<&Owner>,
) -> Spot {
    for (back, standing) in standings.iter().enumerate() {
        if let Some(place) = place_of(draft, program, standing) {
            return place.spot(back, owner);
        }
    }
    NOWHERE
}

/// A parameter for which a call passed no argument. The called routine is `back` calls older than the newest one, and
/// the note is about its call.
#[derive(Drop)]
struct NotHanded {
    back: usize,
    note: String,
}

/// The only call of the routine with this name that a run can be at in this call.
fn call_in(
    draft: &mut Draft,
    program: &WildProgram<'_, '_>,
    standing: Option<&Standing>,
    name: Option<&[u8]>,
) -> Option<Call> {
    place_of(draft, program, standing?)?.only_call(name)
}

/// A parameter of a routine for which no argument was passed.
#[derive(Clone, Copy)]
struct Lacking<'s> {
    routine: &'s [u8],
    name: &'s [u8],
    parameter: Parameter,
}

impl Lacking<'_> {
    /// The word for the routine's parameters.
    fn parameters(&self) -> &'static str {
        if self.parameter.count == 1 {
            "parameter"
        } else {
            "parameters"
        }
    }

    /// The note on a call of the routine with this many arguments.
    fn said_of_few(&self, draft: &mut Draft, arguments: usize) -> String {
        let number = self.parameter.number;
        let sentence = if arguments == 1 {
            "this call passes {} argument, but {} has {} {}: {} is the {}{}"
        } else {
            "this call passes {} arguments, but {} has {} {}: {} is the {}{}"
        };
        draft.filled(
            sentence,
            &[
                Fill::Number(arguments as u64),
                Fill::Shown(self.routine),
                Fill::Number(self.parameter.count as u64),
                Fill::Text(self.parameters()),
                Fill::Shown(self.name),
                Fill::Number(number as u64),
                Fill::Text(ending(number)),
            ],
        )
    }

    /// The note on the place of the call of a routine with one parameter.
    fn said_of_only(&self, draft: &mut Draft) -> String {
        draft.filled(
            "{} was called here, and {} is its only parameter",
            &[Fill::Shown(self.routine), Fill::Shown(self.name)],
        )
    }

    /// The note on the place of the call.
    fn said(&self, draft: &mut Draft) -> String {
        let number = self.parameter.number;
        if self.parameter.count == 1 {
            return self.said_of_only(draft);
        }
        draft.filled(
            "{} was called here, and {} is the {}{} of its {} {}",
            &[
                Fill::Shown(self.routine),
                Fill::Shown(self.name),
                Fill::Number(number as u64),
                Fill::Text(ending(number)),
                Fill::Number(self.parameter.count as u64),
                Fill::Text(self.parameters()),
            ],
        )
    }

    /// The note on the call, if it is known.
    fn said_of(&self, draft: &mut Draft, call: Option<Call>) -> String {
        match call {
            Some(call) if call.arguments < self.parameter.number => {
                self.said_of_few(draft, call.arguments)
            }
            _ => self.said(draft),
        }
    }
}

/// The parameter that was read, if no argument was passed for it. That is so for every parameter without a value.
fn not_handed(
    draft: &mut Draft,
    program: &WildProgram<'_, '_>,
    met: &Met<'_>,
    owner: Option<&Owner>,
) -> Option<NotHanded> {
    let (Cause::Unset(_), OwnerKind::Variable { back, leaf }) = (met.cause, owner?.kind) else {
        return None;
    };
    let place = place_of(draft, program, met.standings.get(back)?)?;
    let parameter = place.read.parameter(place.label, leaf)?;
    let caller = met.standings.get(back.saturating_add(1));
    let call = call_in(draft, program, caller, place.name());
    let lacking = Lacking {
        routine: place.name().unwrap_or(b""),
        name: place.read.text(leaf).unwrap_or(b""),
        parameter,
    };
    Some(NotHanded {
        back,
        note: lacking.said_of(draft, call),
    })
}

/// The address of an access.
fn address_of(cause: Cause) -> Option<u16> {
    match cause {
        Cause::Unset(address) | Cause::Dead(address) | Cause::NoCell(address) => Some(address),
        Cause::NotRoutine(_) | Cause::FrameTooLarge(_) | Cause::Malformed => None,
    }
}

/// Where the run is that the message is about. A call without room hasn't begun, so the run is at its place in the
/// calling routine.
fn stand_of<'m>(met: &Met<'m>) -> Stand<'m> {
    match met.cause {
        Cause::FrameTooLarge(_) => Stand {
            standings: met.standings.get(1..).unwrap_or(&[]),
            calls: met.calls.saturating_sub(1),
        },
        _ => Stand {
            standings: met.standings,
            calls: met.calls,
        },
    }
}

/// What the address of an access belongs to.
fn owner_met(draft: &mut Draft, program: &WildProgram<'_, '_>, met: &Met<'_>) -> Option<Owner> {
    owner_of(draft, program, met.standings, address_of(met.cause)?)
}

/// The name of the routine that was called in the call that is `back` calls older than the newest one; empty if it isn't
/// known.
fn name_of_call<'s>(
    draft: &mut Draft,
    program: &WildProgram<'_, 's>,
    standings: &[Standing],
    back: usize,
) -> &'s [u8] {
    let Some(standing) = standings.get(back) else {
        return b"";
    };
    match place_of(draft, program, standing) {
        Some(place) => place.name().unwrap_or(b""),
        None => b"",
    }
}

/// The leaf of the name of the variable or vector whose cell this is, if it is one of the calling routine.
fn leaf_in_caller(kind: OwnerKind) -> Option<u64> {
    match kind {
        OwnerKind::Element { back, leaf } if back == 1 => Some(leaf),
        OwnerKind::Variable { back, leaf } if back == 1 => Some(leaf),
        _ => None,
    }
}

/// Whether the cell that a call of PUTBYTE met belongs to something other than the vector that it was given.
fn is_after(
    draft: &mut Draft,
    program: &WildProgram<'_, '_>,
    standings: &[Standing],
    owner: Option<&Owner>,
) -> bool {
    let (Some(owner), Some(standing)) = (owner, standings.get(1)) else {
        return false;
    };
    let Some(leaf) = leaf_in_caller(owner.kind) else {
        return false;
    };
    match place_of(draft, program, standing) {
        Some(place) => place.stores_into_other(leaf),
        None => false,
    }
}

/// What the run does with a byte, by the newest calls.
fn byte_access(
    draft: &mut Draft,
    program: &WildProgram<'_, '_>,
    standings: &[Standing],
    owner: Option<&Owner>,
) -> ByteAccess {
    let name = name_of_call(draft, program, standings, 0);
    if name == b"PUTBYTE".as_slice() && is_after(draft, program, standings, owner) {
        return ByteAccess::StoredAfter;
    }
    if name == b"PUTBYTE".as_slice() {
        return ByteAccess::Stored;
    }
    if name != b"GETBYTE".as_slice() {
        return ByteAccess::None;
    }
    let caller = name_of_call(draft, program, standings, 1);
    if caller == b"WRITES".as_slice() || caller == b"WRITEF".as_slice() {
        ByteAccess::Written
    } else {
        ByteAccess::Read
    }
}

/// Whether a text has this word in it.
fn has_word(text: &[u8], word: &[u8]) -> bool {
    for (at, byte) in text.iter().enumerate() {
        if *byte == b'G'
            && let Some(rest) = text.get(at..)
            && rest.starts_with(word)
        {
            return true;
        }
    }
    false
}

/// Whether a source calls GETVEC, other than the library that declares it.
fn calls_getvec(text: &[u8]) -> bool {
    has_word(text, b"GETVEC(") && !has_word(text, b"GETVEC(UPB) =") && !has_word(text, b"GETVEC:")
}

/// Describes a wild access of a program's run.
fn tell(draft: &mut Draft, program: &WildProgram<'_, '_>, met: &Met<'_>) {
    let stand = stand_of(met);
    let owner = owner_met(draft, program, met);
    let spot = spot_of(draft, program, stand.standings, owner.as_ref());
    let not_handed = not_handed(draft, program, met, owner.as_ref());
    let known = WildContext {
        owner: owner.as_ref(),
        is_not_handed: not_handed.is_some(),
        is_exact: spot.is_exact,
        bytes: byte_access(draft, program, stand.standings, owner.as_ref()),
        has_pool: program
            .sources
            .iter()
            .any(|source| calls_getvec(source.text)),
    };
    say(draft, met, known);
    if let Some(help) = help(met, known) {
        draft.help(help, &[]);
    }
    tell_calls(draft, program, stand, spot.span, not_handed.as_ref());
}

/// The message for a wild access of a program's run. Returns `Memory` if an allocation fails.
pub fn wild_message(
    alloc: Global,
    program: &WildProgram<'_, '_>,
    met: &Met<'_>,
) -> Result<Message, Memory> {
    let mut draft = Draft::new(alloc, 0);
    tell(&mut draft, program, met);
    draft.into_message()
}

/// A message with this sentence, the place where a run is, and the calls that led there, the newest one first. Returns
/// `Memory` if an allocation fails.
pub fn placed_message(
    alloc: Global,
    program: &WildProgram<'_, '_>,
    stand: Stand<'_>,
    sentence: String,
) -> Result<Message, Memory> {
    let mut draft = Draft::new(alloc, 0);
    draft.say("{}", &[Fill::Text(sentence.as_str())]);
    tell_calls(&mut draft, program, stand, None, None);
    draft.into_message()
}

/// What a call called.
#[derive(Clone, Copy)]
enum Called<'s> {
    /// A routine of the library that no source has.
    Library,
    /// The routine with this name, if the name is known.
    Routine(Option<&'s [u8]>),
}

impl<'s> Called<'s> {
    /// The name of the called routine, if it is known.
    fn name(self) -> Option<&'s [u8]> {
        match self {
            Called::Library => None,
            Called::Routine(name) => name,
        }
    }
}

/// A call that led to the run's place: its span, what it called, and how many calls are newer than the called one.
#[derive(Clone, Copy)]
struct Leading<'s> {
    span: Span,
    called: Called<'s>,
    back: usize,
}

/// An iteration over the calls of a run, the newest one first.
#[derive(Drop)]
struct ExtentWalk<'s> {
    /// The exact place, if more is known than the expression.
    exact: Option<Span>,
    /// Whether the run's place was reported.
    is_placed: bool,
    /// What the next call called.
    called: Option<Called<'s>>,
    /// The calls that led to the run's place.
    calls: Vec<Leading<'s>>,
}

impl<'s> ExtentWalk<'s> {
    /// Reports the run's place, if it is known here.
    fn begin(&mut self, draft: &mut Draft, sources: &[Source<'_>], place: &AccessPlace<'s>) {
        draft.set_main(place.read.main);
        if let Some(span) = self.exact.or(place.span(sources)) {
            draft.place(span);
            self.is_placed = true;
            say_within(draft, place.name().unwrap_or(b""));
        }
    }

    /// Adds the call at this place. The calling routine belongs to the call with this number.
    fn add(
        &mut self,
        draft: &mut Draft,
        sources: &[Source<'_>],
        place: &AccessPlace<'s>,
        number: usize,
    ) {
        let Some(called) = self.called else {
            return;
        };
        let Some(span) = place.span_of_call(sources, called.name()) else {
            return;
        };
        let leading = Leading {
            span,
            called,
            back: number.saturating_sub(1),
        };
        if self.calls.push(leading).is_err() {
            draft.refuse();
        }
    }

    /// Takes the next call, which has this number.
    fn pass(
        &mut self,
        draft: &mut Draft,
        program: &WildProgram<'_, 's>,
        standing: &Standing,
        number: usize,
    ) {
        let Some(place) = place_of(draft, program, standing) else {
            self.called = Some(Called::Library);
            return;
        };
        if self.is_placed {
            self.add(draft, program.sources, &place, number);
        } else {
            self.begin(draft, program.sources, &place);
        }
        self.called = Some(Called::Routine(place.name()));
    }
}

/// Adds the name of the routine to the sentence.
fn say_within(draft: &mut Draft, name: &[u8]) {
    if !name.is_empty() {
        draft.say(", in {}", &[Fill::Shown(name)]);
    }
}

/// The note on the number of calls that are omitted.
fn said_of_others(draft: &mut Draft, left: usize) -> String {
    let sentence = match left {
        0 => "",
        1 => "; {} more call around it is omitted",
        _ => "; {} more calls around it are omitted",
    };
    draft.filled(sentence, &[Fill::Number(left as u64)])
}

/// The note after a call: all of `others` after the last one.
fn following(others: &str, is_last: bool) -> &str {
    if is_last { others } else { "" }
}

/// Adds a call as a related place, with a note on omitted calls.
fn add_leading<'a>(
    draft: &mut Draft,
    leading: Leading<'a>,
    not_handed: Option<&'a NotHanded>,
    more: &'a str,
) {
    let more = Fill::Text(more);
    let span = leading.span;
    if let Some(not_handed) = not_handed
        && not_handed.back == leading.back
    {
        let note = Fill::Text(not_handed.note.as_str());
        return draft.note(span, "{}{}", &[note, more]);
    }
    match leading.called {
        Called::Library => draft.note(span, "a routine of the library was called here{}", &[more]),
        Called::Routine(name) => {
            let name = Fill::Shown(name.unwrap_or(b""));
            draft.note(span, "{} was called here{}", &[name, more]);
        }
    }
}

/// Reports the run's place, and adds the calls that led there.
fn tell_calls<'s>(
    draft: &mut Draft,
    program: &WildProgram<'_, 's>,
    stand: Stand<'_>,
    exact: Option<Span>,
    not_handed: Option<&NotHanded>,
) {
    let mut walk: ExtentWalk<'s> = ExtentWalk {
        exact,
        is_placed: false,
        called: None,
        calls: Vec::new(draft.alloc()),
    };
    for (number, standing) in stand.standings.iter().enumerate() {
        walk.pass(draft, program, standing, number);
    }
    let left = stand.calls.saturating_sub(stand.standings.len());
    let others = said_of_others(draft, left);
    let count = walk.calls.len();
    for (number, leading) in walk.calls.iter().enumerate() {
        let is_last = number.saturating_add(1) == count;
        add_leading(
            draft,
            *leading,
            not_handed,
            following(others.as_str(), is_last),
        );
    }
}
