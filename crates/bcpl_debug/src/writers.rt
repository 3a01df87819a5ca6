//! Which stop's command changed a cell.

use crate::places::SitePlace;
use crate::scope::cell_in;
use crate::session::Session;
use bc_interpret_record::{Frame, Move, NO_SITE, StopKind};
use bcpl_places::Span;

/// Whether a command of this kind sets cells itself.
fn can_write(kind: StopKind) -> bool {
    matches!(
        kind,
        StopKind::Assign | StopKind::Let | StopKind::For | StopKind::Call
    )
}

/// The command that made the oldest call that these moves leave.
fn caller_of(moves: &[Move]) -> Option<u32> {
    let mut caller = None;
    for step in moves {
        if let Move::Leave(frame) = step {
            caller = Some(frame.caller);
        }
    }
    caller
}

/// How many calls deeper than in some call the run was before these moves, if it is `deeper` calls deeper after them; `None` if that call was
/// entered by them.
fn deeper_before(deeper: usize, moves: &[Move]) -> Option<usize> {
    let mut deeper = deeper;
    for step in moves.iter().rev() {
        deeper = match step {
            Move::Leave(_) => deeper.saturating_add(1),
            Move::Enter(_) => deeper.checked_sub(1)?,
        };
    }
    Some(deeper)
}

impl Session<'_, '_> {
    /// The site of the stop with this index.
    fn site_at(&self, at: usize) -> u32 {
        self.run
            .recording
            .stops
            .get(at)
            .map_or(NO_SITE, |stop| stop.site)
    }

    /// What is about to happen at the stop with this index.
    fn kind_at(&self, at: usize) -> Option<StopKind> {
        let place = self.place(self.site_at(at))?;
        Some(place.kind)
    }

    /// The last stop before this one that is in the same call and at this site.
    fn before_in_call(&self, at: usize, site: u32) -> Option<usize> {
        let mut deeper = 0usize;
        for index in (1..=at).rev() {
            deeper = deeper_before(deeper, self.run.recording.moves_of(index))?;
            let before = index.saturating_sub(1);
            if deeper == 0 && self.site_at(before) == site {
                return Some(before);
            }
        }
        None
    }

    /// The last stop before this one in the same call whose command sets cells and contains that of the stop right before this one.
    fn around(&self, at: usize) -> Option<usize> {
        let inner = self.place(self.site_at(at.checked_sub(1)?))?.span?;
        let mut deeper = 0usize;
        for index in (1..=at).rev() {
            deeper = deeper_before(deeper, self.run.recording.moves_of(index))?;
            let before = index.saturating_sub(1);
            let place = self.place(self.site_at(before))?;
            if deeper == 0
                && can_write(place.kind)
                && let Some(outer) = place.span
                && outer.file == inner.file
                && outer.start <= inner.start
                && inner.end <= outer.end
            {
                return Some(before);
            }
        }
        None
    }

    /// Whether this is the cell of a variable of this call that is declared within this span.
    fn is_declared_in(&self, frame: Frame, span: Span, address: u16) -> bool {
        let index = self.run.names.routine_at(frame.routine);
        let Some(routine) = index.and_then(|index| self.run.names.routines.get(index)) else {
            return false;
        };
        routine.variables.iter().any(|variable| {
            cell_in(frame.base, variable.offset) == address
                && variable.span.is_some_and(|declared| {
                    declared.file == span.file
                        && span.start <= declared.start
                        && declared.end <= span.end
                })
        })
    }

    /// Whether a FOR is at the stop with this index, and its variable has the cell at this address in one of the calls that the run is in.
    fn is_counter(&self, at: usize, address: u16) -> bool {
        let Some(
            SitePlace {
                span: Some(span),
                kind: StopKind::For,
                ..
            },
        ) = self.place(self.site_at(at))
        else {
            return false;
        };
        self.moment
            .frames
            .iter()
            .any(|frame| self.is_declared_in(*frame, span, address))
    }

    /// The stop whose command made the change of the cell at this address between this stop and the one before. A change after the return from
    /// a call, or after a RESULTIS, belongs to the command that waited for it, and that of the variable of a FOR to the FOR.
    pub(crate) fn writer_of(&self, at: usize, address: u16) -> usize {
        let before = at.saturating_sub(1);
        let found = match self.kind_at(before) {
            _ if self.is_counter(at, address) => self.before_in_call(at, self.site_at(at)),
            Some(StopKind::ResultIs | StopKind::Body) => {
                match caller_of(self.run.recording.moves_of(at)) {
                    Some(caller) => self.before_in_call(at, caller),
                    None => self.around(at),
                }
            }
            _ => None,
        };
        found.unwrap_or(before)
    }
}
