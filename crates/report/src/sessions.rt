// What a session brings to a report: presses for each key, packets, and sums of x and y, in numbers
// wide enough for any report.

ghost use Rattle.std.specs.Prelude.{◌≡◌, ◌<◌, ◌≤◌, ◌+◌, length, get_or};
ghost use Rattle.ps2_bytes.specs.declared.response.MouseId.{MouseId};
ghost use Rattle.ps2_packet.specs.Packet.{generic, packet_length};
ghost use Rattle.report.specs.Keys.{for_each_key};
ghost use Rattle.report.specs.Events.{event_code, presses};
ghost use Rattle.report.specs.Packets.{Movements};
ghost use Rattle.report.specs.Totals.{tallied, tally_bytes};

use keycodes_ascii::{KEY_RELEASED_OFFSET, KeyAction, KeyEvent};
use ps2_bytes::MouseId;
use ps2_packet::MousePacketGeneric;

// The keycodes of events are 00 to 5D.
const KEYS: usize = 94;

// Sums over fewer bytes fit 64 bits, since a packet moves by at most 256.
const TALLY_BYTES: usize = 18014398509481984;

/// Presses by keycode, packets, and sums of x and y. C reads them as they lie, so the counts are an
/// array.
#[repr(C)]
#[derive(Clone, Copy)]
pub struct Totals {
    pub presses: [u64; 94],
    pub packets: u64,
    pub x: i64,
    pub y: i64,
}

// What the mouse bytes come to.
#[derive(Clone, Copy)]
struct Moved {
    packets: u64,
    x: i64,
    y: i64,
}

/// An event as a report takes it, in one byte: the keycode's number where it is a press, and from
/// 128 on where it is a release.
/// C lends a session's events as such bytes.
pub fn event_code(event: KeyEvent) -> u8
    ensures { result ≡ event_code event }
{
    let number = u8::from(event.keycode);
    match event.action {
        KeyAction::Pressed => number,
        KeyAction::Released => number % KEY_RELEASED_OFFSET + KEY_RELEASED_OFFSET,
    }
}

// The presses of each key.
fn tally_presses(codes: &[u8]) -> [u64; 94]
    ensures { result ≡ for_each_key (λ key. presses key codes.now) }
{
    let mut presses = [0; KEYS];
    for &code in codes {
        let key = usize::from(code);
        if key < KEYS {
            presses[key] += 1;
        }
    }
    presses
}

// The first three bytes of the packet at a place.
fn packet_at(bytes: &[u8], at: usize) -> MousePacketGeneric
    requires { at + 3 ≤ length bytes.now }
    ensures { result ≡ generic (get_or bytes.now at 0) (get_or bytes.now (at + 1) 0)
        (get_or bytes.now (at + 2) 0) }
{
    MousePacketGeneric::from_bytes(bytes[at], bytes[at + 1], bytes[at + 2])
}

// The packets of so many bytes and the sums of x and y, packet by packet.
fn pass<const N: usize>(bytes: &[u8]) -> Moved
    requires length { (id : MouseId) × (packet_length id ≡ N) }
    requires room { length bytes.now < tally_bytes }
    ensures { (id : MouseId) → packet_length id ≡ N
        → Movements id bytes.now result.packets result.x result.y }
{
    let whole = bytes.len() / N;
    let mut x = 0;
    let mut y = 0;
    for i in 0..whole {
        let p = packet_at(bytes, i * N);
        x += p.wide_x_movement();
        y += p.wide_y_movement();
    }
    Moved {
        packets: whole as u64,
        x,
        y,
    }
}

// What the mouse bytes come to. Each length has a pass of
// its own, in which the compiler knows how long a packet is.
fn tally_mouse(id: MouseId, bytes: &[u8]) -> Moved
    requires { length bytes.now < tally_bytes }
    ensures { Movements id bytes.now result.packets result.x result.y }
{
    match id {
        MouseId::Zero => pass::<3>(bytes),
        MouseId::Three | MouseId::Four => pass::<4>(bytes),
    }
}

/// What a session brings: the presses among its events, each as `event_code` has it, and the
/// packets of its mouse bytes with their movements.
/// Nothing where its mouse bytes are too many to be summed: they are more packets than a report can
/// count.
pub fn tally(id: MouseId, events: &[u8], mouse: &[u8]) -> Option<Totals>
    ensures { result ≡ tallied (record { id = id; events = events.now; mouse = mouse.now }) }
{
    if TALLY_BYTES <= mouse.len() {
        return None;
    }
    let moved = tally_mouse(id, mouse);
    Some(Totals {
        presses: tally_presses(events),
        packets: moved.packets,
        x: moved.x,
        y: moved.y,
    })
}
