//! The primitives: select, read, write, find and end streams.

ghost use Rattle.std.specs.Prelude.{◌≡◌, ◌+◌, ℕ, IfOk};
ghost use Rattle.bc_machine_defs.specs.Execute.{byte_or_end};
ghost use Rattle.bc_core.specs.Outcome.{read as read_cell};
ghost use Rattle.bc_core.specs.Primitive as primitives;
ghost use Rattle.bc_core.specs.Primitive.{byte_of_string, string_of};
ghost use Rattle.bc_interpret_steps.specs.Came.{primitive_of};
ghost use Rattle.bc_interpret.specs.Serving.{Gets, GetsName, ServesOn, ServesAt, ServesIn};

use bc_interpret_pure::Cause;
use bc_interpret_steps::{OpenCall, Primitive, State};
use bc_interpret_store::Cell;
use bc_machine::{Side, Streams};
use bc_word::{Memory, Word};

/// The result of a primitive.
#[derive(Clone, Copy)]
pub(crate) enum Served {
    /// It returns this value.
    Number(u16),
    /// It met a wild access.
    Wild(Cause),
    /// A device failed.
    Device,
}

/// Reads the cell at this address; `Err` if it is dead or unset.
#[tactic(auto, using(crate::proofs::Serving::read_dead, crate::proofs::Serving::read_unset, crate::proofs::Serving::read_set))]
fn read(state: &State, address: u16) -> Result<u16, Cause>
    ensures { Gets (read_cell address) state.now result }
{
    match state.store.at(address) {
        Cell::Dead => Err(Cause::Dead(address)),
        Cell::Unset => Err(Cause::Unset(address)),
        Cell::Set(word) => Ok(word),
    }
}

/// Byte `k` of the string at this address, of which byte 0 is the length; `Err` if its cell is dead or unset.
#[tactic(auto, using(crate::proofs::Serving::high_byte, crate::proofs::Serving::low_byte, crate::proofs::Serving::no_byte))]
fn byte_at(state: &State, address: u16, k: u16) -> Result<u8, Cause>
    ensures { Gets (byte_of_string address k) state.now result }
{
    match read(state, address.wrapping_add(k / 2)) {
        Ok(word) => {
            if k % 2 == 0 {
                return Ok((word / 256) as u8);
            }
            Ok((word % 256) as u8)
        }
        Err(cause) => Err(cause),
    }
}

/// Puts the bytes of the string at this address into `name`, without its length. Returns the cause of the wild access, if there is one.
///
/// `Memory` if an allocation fails.
fn string(state: &State, address: u16, name: &mut Vec<u8>) -> Result<Option<Cause>, Memory>
    ensures { IfOk result (λ fault. GetsName (string_of address) state.now fault name.new.items) }
{
    name.clear();
    let length = match byte_at(state, address, 0) {
        Ok(length) => length,
        Err(cause) => return Ok(Some(cause)),
    };
    for k in 0..length {
        match byte_at(state, address, u16::from(k) + 1) {
            Ok(byte) => name.push(byte)?,
            Err(cause) => return Ok(Some(cause)),
        }
    }
    Ok(None)
}

/// Selects the stream whose number is in the cell at address `argument`.
fn select<S: Streams>(side: Side, argument: u16, state: &State, streams: &mut S) -> Served
    ensures { ServesAt S.known S.content S.failures argument (primitives.Select side) state.now streams.old streams.new result }
{
    match read(state, argument) {
        Ok(number) => {
            streams.select(side, Word::new(number));
            Served::Number(0)
        }
        Err(cause) => Served::Wild(cause),
    }
}

/// The value of RDCH: the byte, or 65,535 at the end of the stream.
fn value_of(byte: Option<u8>) -> u16
    ensures { result ≡ byte_or_end byte }
{
    match byte {
        Some(byte) => u16::from(byte),
        None => 65535,
    }
}

/// Reads a byte from the selected input.
fn read_byte<S: Streams>(state: &State, streams: &mut S) -> Served
    ensures { (f : ℕ) → ServesOn S.known S.content S.failures primitives.ReadByte f state.now streams.old streams.new result }
{
    let _state = state;
    match streams.read() {
        Ok(byte) => Served::Number(value_of(byte)),
        Err(_) => Served::Device,
    }
}

/// Writes the low byte of the word in the cell at address `argument` to the selected output.
fn write_byte<S: Streams>(argument: u16, state: &State, streams: &mut S) -> Served
    ensures { ServesAt S.known S.content S.failures argument primitives.WriteByte state.now streams.old streams.new result }
{
    match read(state, argument) {
        Ok(word) => match streams.write((word % 256) as u8) {
            Ok(()) => Served::Number(0),
            Err(_) => Served::Device,
        },
        Err(cause) => Served::Wild(cause),
    }
}

/// Finds the stream whose name is a string; the cell at address `argument` holds the string's address.
///
/// `Memory` if an allocation fails.
fn find<S: Streams>(
    side: Side,
    argument: u16,
    state: &State,
    streams: &S,
    name: &mut Vec<u8>,
) -> Result<Served, Memory>
    ensures { IfOk result (λ served. ServesAt S.known S.content S.failures argument (primitives.Find side) state.now streams.now streams.now served) }
{
    match read(state, argument) {
        Ok(address) => {
            let fault = string(state, address, name)?;
            match fault {
                None => Ok(Served::Number(streams.find(side, name).get())),
                Some(cause) => Ok(Served::Wild(cause)),
            }
        }
        Err(cause) => Ok(Served::Wild(cause)),
    }
}

/// Ends the selected stream.
fn end_stream<S: Streams>(side: Side, state: &State, streams: &mut S) -> Served
    ensures { (f : ℕ) → ServesOn S.known S.content S.failures (primitives.EndStream side) f state.now streams.old streams.new result }
{
    let _state = state;
    match streams.end(side) {
        Ok(()) => Served::Number(0),
        Err(_) => Served::Device,
    }
}

/// Does the work of a primitive whose argument is in the cell at address `argument`.
///
/// `Memory` if an allocation fails.
fn work<S: Streams>(
    primitive: Primitive,
    argument: u16,
    state: &State,
    streams: &mut S,
    name: &mut Vec<u8>,
) -> Result<Served, Memory>
    ensures { IfOk result (λ served. ServesAt S.known S.content S.failures argument (primitive_of primitive) state.now streams.old streams.new served) }
{
    match primitive {
        Primitive::Select(side) => Ok(select(side, argument, state, streams)),
        Primitive::ReadByte => Ok(read_byte(state, streams)),
        Primitive::WriteByte => Ok(write_byte(argument, state, streams)),
        Primitive::Find(side) => Ok(find(side, argument, state, streams, name)?),
        Primitive::EndStream(side) => Ok(end_stream(side, state, streams)),
    }
}

/// The address of the argument of a primitive whose frame is at this address.
///
/// `Memory` if that isn't an address, which no call causes.
fn argument_in(frame: usize) -> Result<u16, Memory>
    ensures { IfOk result (λ a. a ≡ frame + 2) }
{
    let address = frame.checked_add(2).ok_or(Memory)?;
    u16::try_from(address).map_err(|_| Memory)
}

/// Does the work of a primitive in the frame at this address, and frees the cell of its argument.
///
/// `Memory` if an allocation fails.
pub(crate) fn serve<S: Streams>(
    primitive: Primitive,
    call: OpenCall,
    state: &mut State,
    streams: &mut S,
    name: &mut Vec<u8>,
) -> Result<Served, Memory>
    ensures { IfOk result (λ served. ServesIn S.known S.content S.failures (primitive_of primitive) call.frame state.old state.new
        streams.old streams.new served) }
{
    let argument = argument_in(call.frame as usize)?;
    let served = work(primitive, argument, state, streams, name)?;
    state.store.close(1, usize::from(argument));
    Ok(served)
}
