//! The stops of a recording as a stream of bytes, as pages/debugger/FORMAT.md has it.

use bc_interpret_record::{Cell, Change, Frame, Move, NO_SITE, Recording, Stop};
use bc_word::Memory;
use std::alloc::Global;

/// A call that the run is in: the base of its frame, and the number of the place at which the run last was in it.
#[derive(Clone, Copy)]
struct OpenCall {
    base: u64,
    place: u64,
}

/// The stops of a recording as bytes, while they are written.
#[derive(Drop)]
struct Stream<'r> {
    alloc: Global,
    bytes: Vec<u8>,
    recording: &'r Recording,
    /// For each address the number of the routine there, plus 1.
    routines: &'r [u32],
    /// The number of the place that isn't known.
    unknown: u32,
    /// The calls that the run is in at the last stop, the newest one last.
    calls: Vec<OpenCall>,
    /// The number of the place of the last stop.
    place: u64,
    /// Whether an allocation failed. Then the rest is void.
    is_refused: bool,
}

/// The state of a cell as a number.
pub fn state_of(cell: Cell) -> u64 {
    match cell {
        Cell::Dead => 0,
        Cell::Unset => 1,
        Cell::Set(word) => u64::from(word).saturating_add(2),
    }
}

/// A difference as a number.
fn signed(from: u64, to: u64) -> u64 {
    if to >= from {
        (to - from).saturating_mul(2)
    } else {
        (from - to).saturating_mul(2).saturating_sub(1)
    }
}

impl Stream<'_> {
    /// Appends a byte.
    fn byte(&mut self, byte: u8) {
        if self.bytes.push(byte).is_err() {
            self.is_refused = true;
        }
    }

    /// Appends a number.
    fn number(&mut self, number: u64) {
        let mut left = number;
        for _each in 0..10u8 {
            let low = (left % 128) as u8;
            left /= 128;
            if left == 0 {
                return self.byte(low);
            }
            self.byte(low + 128);
        }
    }

    /// The number of the place of this site.
    fn place_of(&self, site: u32) -> u64 {
        u64::from(if site == NO_SITE { self.unknown } else { site })
    }

    /// The number of the routine at this address.
    fn routine(&self, address: u16) -> u64 {
        let number = self
            .routines
            .get(usize::from(address))
            .copied()
            .unwrap_or(0);
        u64::from(number.saturating_sub(1))
    }

    /// Moves the newest call to the place with this number.
    fn move_call(&mut self, place: u64) {
        if let Some(call) = self.calls.last_mut() {
            call.place = place;
        }
    }

    /// Enters a call that was made at the place with this number.
    fn enter(&mut self, base: u32, place: u64) {
        self.move_call(place);
        let call = OpenCall {
            base: u64::from(base),
            place,
        };
        if self.calls.push(call).is_err() {
            self.is_refused = true;
        }
    }

    /// Enters the calls of the first stop.
    fn begin(&mut self) {
        let recording = self.recording;
        for frame in &recording.frames {
            let place = self.place_of(frame.caller);
            self.enter(frame.base, place);
        }
    }

    /// The newest call.
    fn newest(&self) -> OpenCall {
        self.calls
            .last()
            .copied()
            .unwrap_or(OpenCall { base: 0, place: 0 })
    }

    /// Appends which calls were left and entered. A call that was entered and left in between isn't mentioned.
    fn moves(&mut self, moves: &[Move]) {
        let mut left = 0usize;
        let mut entered = 0usize;
        for step in moves {
            match step {
                Move::Enter(_) => entered = entered.saturating_add(1),
                Move::Leave(_) => {
                    if entered > 0 {
                        entered -= 1;
                    } else {
                        left = left.saturating_add(1);
                        let _left = self.calls.pop();
                    }
                }
            }
        }
        let (left, count) = (left as u64, entered as u64);
        self.number(left.saturating_mul(4).saturating_add(count.min(3)));
        if let Some(more) = count.checked_sub(3) {
            self.number(more);
        }
        self.entered(moves, entered);
    }

    /// Appends the last `count` calls that were entered and not left.
    fn entered(&mut self, moves: &[Move], count: usize) {
        match last_entered(self.alloc, moves, count) {
            Ok(frames) => {
                for frame in frames.iter().rev() {
                    self.call(*frame);
                }
            }
            Err(_) => self.is_refused = true,
        }
    }

    /// Appends a call that was entered.
    fn call(&mut self, frame: Frame) {
        let caller = self.newest();
        let place = self.place_of(frame.caller);
        let is_elsewhere = place != caller.place;
        let routine = self.routine(frame.routine);
        self.number(
            routine
                .saturating_mul(2)
                .saturating_add(flag(is_elsewhere, 1)),
        );
        self.number(signed(caller.base, u64::from(frame.base)));
        if is_elsewhere {
            self.number(place);
        }
        self.enter(frame.base, place);
    }

    /// Appends changes of cells; neighbours with the same new state are one change.
    fn changes(&mut self, changes: &[Change]) {
        let mut last = self.newest().base;
        let mut skipped = 0usize;
        for (index, first) in changes.iter().enumerate() {
            if skipped > 0 {
                skipped -= 1;
            } else {
                let following = changes.get(index.saturating_add(1)..).unwrap_or(&[]);
                skipped = run_of(*first, following);
                last = self.change(last, *first, following.get(..skipped).unwrap_or(&[]));
            }
        }
    }

    /// Appends a change of a cell and of its neighbours, after one whose last address is `last`. Returns its own last address.
    fn change(&mut self, last: u64, first: Change, others: &[Change]) -> u64 {
        let is_run = !others.is_empty();
        let is_dead = first.new == Cell::Dead;
        self.number(
            signed(last, u64::from(first.address))
                .saturating_mul(4)
                .saturating_add(flag(is_run, 1))
                .saturating_add(flag(is_dead, 2)),
        );
        if is_run {
            self.number((others.len() as u64).saturating_sub(1));
        }
        if !is_dead {
            self.number(state_of(first.new));
        }
        let end = others.last().map_or(first.address, |end| end.address);
        u64::from(end)
    }

    /// Appends how many bytes the program wrote, these bytes, and how many it took.
    fn streams(&mut self, output: &[u8], taken: usize) {
        self.number(output.len() as u64);
        if self.bytes.extend_from_slice(output).is_err() {
            self.is_refused = true;
        }
        self.number(taken as u64);
    }

    /// Appends the place of a stop, and flags.
    fn head(&mut self, place: u64, flags: u64) {
        self.number(
            signed(self.place, place)
                .saturating_mul(16)
                .saturating_add(flags),
        );
        self.place = place;
    }

    /// Appends a stop at which the run is at this place, after these moves and changes. It wrote this output since the stop before it, and
    /// took this number of bytes.
    fn parts(&mut self, place: u64, moves: &[Move], changes: &[Change], streams: (&[u8], usize)) {
        let (output, taken) = streams;
        let has_streams = !output.is_empty() || taken > 0;
        let runs = count_runs(changes);
        let flags = flag(!moves.is_empty(), 1)
            .saturating_add(runs.min(3).saturating_mul(2))
            .saturating_add(flag(has_streams, 8));
        self.head(place, flags);
        if !moves.is_empty() {
            self.moves(moves);
        }
        if let Some(more) = runs.checked_sub(3) {
            self.number(more);
        }
        self.changes(changes);
        if has_streams {
            self.streams(output, taken);
        }
        self.move_call(place);
    }

    /// Appends a stop; the one before it is `before`.
    fn stop(&mut self, index: usize, before: Stop, stop: Stop) {
        let recording = self.recording;
        let output = recording
            .output
            .get(before.output..stop.output)
            .unwrap_or(&[]);
        let streams = (output, stop.taken.saturating_sub(before.taken));
        let is_first = index == 0;
        let moves: &[Move] = if is_first {
            &[]
        } else {
            recording.moves_of(index)
        };
        let changes: &[Change] = if is_first {
            &[]
        } else {
            recording.changes_of(index)
        };
        let place = self.place_of(stop.site);
        self.parts(place, moves, changes, streams);
    }

    /// Appends all stops.
    fn stops(&mut self) {
        let recording = self.recording;
        let mut before = None;
        for (index, stop) in recording.stops.iter().enumerate() {
            self.stop(index, before.unwrap_or(*stop), *stop);
            before = Some(*stop);
        }
    }
}

/// The last `count` calls that these moves enter and don't leave, the newest one first.
fn last_entered(alloc: Global, moves: &[Move], count: usize) -> Result<Vec<Frame>, Memory> {
    let mut depth = 0usize;
    let mut frames = Vec::new(alloc);
    for step in moves.iter().rev() {
        match step {
            Move::Leave(_) => depth = depth.saturating_add(1),
            Move::Enter(frame) => {
                if depth > 0 {
                    depth -= 1;
                } else if frames.len() < count {
                    frames.push(*frame)?;
                }
            }
        }
    }
    Ok(frames)
}

/// This value if `is`, else 0.
fn flag(is: bool, value: u64) -> u64 {
    if is { value } else { 0 }
}

/// How many runs changes have.
fn count_runs(changes: &[Change]) -> u64 {
    let mut runs = 0u64;
    let mut skipped = 0usize;
    for (index, first) in changes.iter().enumerate() {
        if skipped > 0 {
            skipped -= 1;
        } else {
            runs = runs.saturating_add(1);
            skipped = run_of(
                *first,
                changes.get(index.saturating_add(1)..).unwrap_or(&[]),
            );
        }
    }
    runs
}

/// How many of the following changes continue a run: at the next addresses, with the same new state.
fn run_of(first: Change, following: &[Change]) -> usize {
    let mut length = 0usize;
    let mut address = first.address;
    for change in following {
        address = address.wrapping_add(1);
        if change.address != address || change.new != first.new {
            return length;
        }
        length = length.saturating_add(1);
    }
    length
}

/// The stops of a recording as bytes. `routines` has for each address the number of the routine there, plus 1; `unknown` is the number of a
/// place that isn't known.
///
/// `Memory` if an allocation fails.
pub fn bytes_of(
    alloc: Global,
    recording: &Recording,
    routines: &[u32],
    unknown: u32,
) -> Result<Vec<u8>, Memory> {
    let mut stream = Stream {
        alloc,
        bytes: Vec::new(alloc),
        recording,
        routines,
        unknown,
        calls: Vec::new(alloc),
        place: 0,
        is_refused: false,
    };
    stream.begin();
    stream.stops();
    let Stream {
        bytes,
        is_refused,
        ..
    } = stream;
    if is_refused { Err(Memory) } else { Ok(bytes) }
}
