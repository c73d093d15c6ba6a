// What scancodes say by themselves, with what the handler remembers of
// one keyboard: whether a byte is a prefix, no key's or a lock's press,
// and the flags just after it; the lamps of the locks that are on.
#![tactic(auto)]

ghost use Rattle.std.specs.Prelude.{false, ◌≡◌};
ghost use Rattle.keyboard_scancodes.specs.Strokes.{stroke, is_prefix, is_silent};
ghost use Rattle.keyboard_scancodes.specs.FlagTable.{flag_table, presses_lock};
ghost use Rattle.keyboard_scancodes.specs.Profile.{allows, is_tournament_code, followed, presses_followed};
ghost use Rattle.keyboard_scancodes.specs.Plain.{is_plain};
ghost use Rattle.keyboard_scancodes.specs.FlagsAfter.{flags_after, held_flags, lock_flags};
ghost use Rattle.keyboard_scancodes.specs.Lamps.{lamps_lit};
ghost use Rattle.keyboard_scancodes.specs.Waiting.{waiting_in};

use keyboard_modifiers::KeyboardModifiers;
use keycodes_ascii::{KEY_RELEASED_OFFSET, Keycode};
use ps2_kept::{KEPT_LIMIT, KeptBytes};
use ps2_layouts::LEDState;

// The prefixes of extended keys, and the bytes that are no
// key's: an error of the port, and an acknowledgement.
const EXTENDED_SCANCODE: u8 = 0xE0;

const EXTENDED_SCANCODE_2: u8 = 0xE1;

const KEY_ERROR: u8 = 0x00;

const ACKNOWLEDGE: u8 = 0xFA;

// The low seven bits of a scancode are its key's press code.
const LOW_PART: u8 = 0x7F;

// The press codes of the keys that have a flag, under the names that the Rust's `Keycode` has for
// them: bytes, since a scancode is compared with them.
const CONTROL: u8 = Keycode::Control as u8;

const ALT: u8 = Keycode::Alt as u8;

const LEFT_SHIFT: u8 = Keycode::LeftShift as u8;

const RIGHT_SHIFT: u8 = Keycode::RightShift as u8;

const SUPER_KEY_LEFT: u8 = Keycode::SuperKeyLeft as u8;

const SUPER_KEY_RIGHT: u8 = Keycode::SuperKeyRight as u8;

const CAPS_LOCK: u8 = Keycode::CapsLock as u8;

const NUM_LOCK: u8 = Keycode::NumLock as u8;

const SCROLL_LOCK: u8 = Keycode::ScrollLock as u8;

// The flags of the right Alt key.
const ALT_AND_ALT_RIGHT: KeyboardModifiers = KeyboardModifiers {
    bits: 1 << 4 | 1 << 10,
};

// Two words of 64 bits, for speed: as one `u128`, as `PLAIN_KEYS` is, the press of a lock took 45.4
// ns by C in place of 44.8, and that of a key under the profile 41.6 in place of 40.6.
// The keys that rated games allow, a bit for each keycode: Escape, the digits, Q to P, Enter,
// Control, A to L, the left Shift, Z to M, the right Shift;
const TOURNAMENT_KEYS: u64 = 1 << 0x01
    | 0x3FF << 0x02
    | 0x3FF << 0x10
    | 1 << 0x1C
    | 1 << 0x1D
    | 0x1FF << 0x1E
    | 1 << 0x2A
    | 0x7F << 0x2C
    | 1 << 0x36;

// and from keycode 40 on: up, left, right, down.
const TOURNAMENT_ARROWS: u64 = 1 << (0x48 - 0x40)
    | 1 << (0x4B - 0x40)
    | 1 << (0x4D - 0x40)
    | 1 << (0x50 - 0x40);

// The keys that have no flag, a bit for each keycode from 01 to 5D: all but Control, the Shifts,
// Alt, the locks and the Super keys.
const PLAIN_KEYS: u128 = ((1 << 0x5E) - 1)
    & !(1 << 0x00
        | 1 << CONTROL
        | 1 << LEFT_SHIFT
        | 1 << RIGHT_SHIFT
        | 1 << ALT
        | 1 << CAPS_LOCK
        | 1 << NUM_LOCK
        | 1 << SCROLL_LOCK
        | 1 << SUPER_KEY_LEFT
        | 1 << SUPER_KEY_RIGHT);

/// Under which keys a game is played: any, or those that rated games allow.
#[derive(Clone, Copy, PartialEq, Eq)]
pub enum Profile {
    Any,
    Tournament,
}

/// Bytes that wait to be taken, the oldest first: a lamp exchange threw them away.
#[derive(Clone, Copy)]
pub struct WaitingBytes {
    pub bytes: [u8; KEPT_LIMIT],
    pub count: u8,
}

/// What the handler remembers of one keyboard: the bytes that wait, whether the last byte was a
/// prefix, and the keys that are held and the locks that are on.
/// In this order no padding lies between the fields, and a copy is not made around it.
#[derive(Clone, Copy)]
pub struct KeyboardState {
    pub waiting: WaitingBytes,
    pub prefix: bool,
    pub modifiers: KeyboardModifiers,
}

// Bytes that a receiving threw away wait from now on; any beyond the earliest 16 are lost.
impl From<KeptBytes> for WaitingBytes {
    ghost from_gives = { λ kept waiting. waiting ≡ waiting_in kept };

    fn from(kept: KeptBytes) -> WaitingBytes {
        let bytes = kept.bytes;
        WaitingBytes {
            bytes,
            count: kept.count,
        }
    }
}

/// E0 and E1 say that the next byte belongs to an extended key.
pub fn is_prefix(scan_code: u8) -> bool
    ensures { result ≡ is_prefix scan_code }
{
    scan_code == EXTENDED_SCANCODE || scan_code == EXTENDED_SCANCODE_2
}

/// The prefixes, 00 (an error of the port) and FA (an acknowledgement) are no key's.
pub fn is_silent(scan_code: u8) -> bool
    ensures { result ≡ is_silent scan_code }
{
    is_prefix(scan_code) || scan_code == KEY_ERROR || scan_code == ACKNOWLEDGE
}

/// A byte of a key that has no flag: whatever came before, its event is all that it gives.
pub fn is_plain(scan_code: u8) -> bool
    ensures { result ≡ is_plain scan_code }
{
    PLAIN_KEYS & (1 << (scan_code % 128)) != 0
}

// The flags that a key holds down, by its press code: none where it is no such key's. A prefix
// directly before tells right Control from left, and right Alt, which is an Alt too.
fn held_flags(code: u8, prefix: bool) -> KeyboardModifiers
    ensures { result.bits ≡ held_flags flag_table code prefix }
{
    match code {
        CONTROL if prefix => KeyboardModifiers::CONTROL_RIGHT,
        CONTROL => KeyboardModifiers::CONTROL_LEFT,
        ALT if prefix => ALT_AND_ALT_RIGHT,
        ALT => KeyboardModifiers::ALT,
        LEFT_SHIFT => KeyboardModifiers::SHIFT_LEFT,
        RIGHT_SHIFT => KeyboardModifiers::SHIFT_RIGHT,
        SUPER_KEY_LEFT => KeyboardModifiers::SUPER_KEY_LEFT,
        SUPER_KEY_RIGHT => KeyboardModifiers::SUPER_KEY_RIGHT,
        _ => KeyboardModifiers { bits: 0 },
    }
}

// The flag of a lock, by its press code: none where it is no lock's.
fn lock_flag(code: u8) -> KeyboardModifiers
    ensures { result.bits ≡ lock_flags flag_table code }
{
    match code {
        CAPS_LOCK => KeyboardModifiers::CAPS_LOCK,
        SCROLL_LOCK => KeyboardModifiers::SCROLL_LOCK,
        NUM_LOCK => KeyboardModifiers::NUM_LOCK,
        _ => KeyboardModifiers { bits: 0 },
    }
}

// The same of the locks that a profile follows.
fn followed_lock(profile: Profile, code: u8) -> KeyboardModifiers
    ensures { result.bits ≡ lock_flags (followed profile) code }
{
    match profile {
        Profile::Any => lock_flag(code),
        Profile::Tournament => KeyboardModifiers { bits: 0 },
    }
}

impl Profile {
    /// Whether a key's events are queued.
    pub fn allows(self, keycode: Keycode) -> bool
        ensures { result ≡ allows self keycode }
    {
        matches!(self, Profile::Any) || is_tournament_key(u8::from(keycode))
    }
}

// Whether rated games allow a key, by its number.
fn is_tournament_key(code: u8) -> bool
    ensures { result ≡ is_tournament_code code }
{
    match code {
        0..64 => TOURNAMENT_KEYS & (1 << code) != 0,
        64..128 => TOURNAMENT_ARROWS & (1 << (code - 64)) != 0,
        _ => false,
    }
}

/// The press of a lock that a profile follows: Caps Lock, Num Lock or Scroll Lock, or none.
pub fn is_lock_press(profile: Profile, scan_code: u8) -> bool
    ensures { result ≡ presses_followed profile scan_code }
{
    matches!(profile, Profile::Any) && presses_lock(scan_code)
}

// The press of Caps Lock, Num Lock or Scroll Lock.
fn presses_lock(scan_code: u8) -> bool
    ensures { result ≡ presses_lock flag_table (stroke scan_code false) }
{
    scan_code == CAPS_LOCK || scan_code == NUM_LOCK || scan_code == SCROLL_LOCK
}

/// The flags just after a scancode: a key's press holds its flags down and its release lets them
/// go; a lock that the profile follows goes over at its press.
pub fn modifiers_after(
    profile: Profile,
    keyboard: KeyboardState,
    scan_code: u8,
) -> KeyboardModifiers
    ensures { result.bits ≡ flags_after (followed profile) (stroke scan_code keyboard.prefix)
        keyboard.modifiers.bits }
{
    let code = scan_code & LOW_PART;
    let held = held_flags(code, keyboard.prefix);
    if scan_code < KEY_RELEASED_OFFSET {
        let lock = followed_lock(profile, code);
        keyboard.modifiers.insert(held).toggle(lock)
    } else {
        keyboard.modifiers.remove(held)
    }
}

/// The lamps of the locks that are on.
pub fn leds(modifiers: KeyboardModifiers) -> LEDState
    ensures { result.bits ≡ lamps_lit modifiers.bits }
{
    LEDState::new()
        .with_scroll_lock(modifiers.is_scroll_lock())
        .with_number_lock(modifiers.is_num_lock())
        .with_caps_lock(modifiers.is_caps_lock())
}
