//! What operations read from the store: the table of a switch, and the name of a stream. All addresses are modulo 65,536.

ghost use Rattle.std.specs.Prelude.{◌≡◌, length, slice_index};
ghost use Rattle.bc_machine_defs.specs.Operand.{next};
ghost use Rattle.bc_machine_defs.specs.Switch.{case_of, switch_of};
ghost use Rattle.bc_machine_defs.specs.StreamCalls.{find_stream};
ghost use Rattle.bc_machine_defs.specs.Text.{byte_at as byte_of, string_at};

use crate::streams::Streams;
use bc_machine_defs::Side;

/// The address to which a switch goes for the value `a`. The words of the switch begin at address `c`.
pub fn switch_target(store: &[u16], c: u16, a: u16) -> u16
    requires { length store.now ≡ 65536 }
    ensures { result ≡ switch_of c a store.now }
{
    let mut at = c.wrapping_add(1).wrapping_add(1);
    let mut left = store[c as usize];
    while left > 0 {
        if store[at as usize] == a {
            return store[at.wrapping_add(1) as usize];
        }
        at = at.wrapping_add(1).wrapping_add(1);
        left -= 1;
    }
    store[c.wrapping_add(1) as usize]
}

/// Byte `k` of the string at this address; byte 0 is its length.
fn byte_at(store: &[u16], address: u16, k: u16) -> u8
    requires { length store.now ≡ 65536 }
    ensures { result ≡ byte_of address k store.now }
{
    let word = store[address.wrapping_add(k / 2) as usize];
    if k % 2 == 0 {
        (word / 256) as u8
    } else {
        (word % 256) as u8
    }
}

/// The number of the stream whose name is the string at this address, or 0 if there is none.
#[inline(never)]
pub fn find_named<S: Streams>(store: &[u16], address: u16, side: Side, streams: &S) -> u16
    requires { length store.now ≡ 65536 }
    ensures { S.known streams.now → result ≡ find_stream side (string_at address store.now) (S.content streams.now) }
{
    let mut name = [0u8; 255];
    let length = byte_at(store, address, 0) as usize;
    for k in 0..length {
        name[k] = byte_at(store, address, k as u16 + 1);
    }
    streams.find(side, &name[..length]).get()
}
