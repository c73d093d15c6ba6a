// The Rust's `keycodes_ascii` once more: keycodes, the flags as the Rust numbers them, key events, characters.
#![tactic(auto)]

ghost use Rattle.std.specs.Prelude.{◌≡◌, ◌||◌, true, false};
ghost use Rattle.std.specs.Bool.{xor};
ghost use Rattle.bits.specs.Bits.{bit, bitwise, meet, without};
ghost use Rattle.keycodes_ascii.specs.Keycode.{keycode_of};
ghost use Rattle.keycodes_ascii.specs.Characters.{writes, is_letter, character, character_of, scancode_character};
ghost use Rattle.theseus_keycodes.specs.Flags.{control_left, control_right, shift_left, shift_right, alt, alt_gr, super_key_left, super_key_right, caps_lock, num_lock, scroll_lock, ours_modifiers, checked};
ghost use Rattle.theseus_keycodes.specs.Keycode.{ours, read_as_ours};

use std::ops::BitOr;

mod comparison;

pub use comparison::{
    BothAnswers, BothCharacters, BothEvents, BothKeycodes, BothQuestions, both_is_letter,
    both_new_event, both_questions, both_scancode_to_ascii, both_to_ascii, both_try_from,
};

// The flags, and what `bitflags!` makes of the Rust's list of them: a word, a constant for each flag, and the operations that are asked for.
/// The set of modifier keys that can be held down while other keys are pressed.
///
/// To save space, this is expressed using bitflags
/// rather than a series of individual booleans,
/// because Rust's `bool` type is a whole byte.
#[derive(Clone, Copy, PartialEq, Eq)]
pub struct KeyboardModifiers {
    pub bits: u16,
}

impl KeyboardModifiers {
    pub const CONTROL_LEFT: KeyboardModifiers = KeyboardModifiers { bits: 1 << 0 };

    pub const CONTROL_RIGHT: KeyboardModifiers = KeyboardModifiers { bits: 1 << 1 };

    pub const SHIFT_LEFT: KeyboardModifiers = KeyboardModifiers { bits: 1 << 2 };

    pub const SHIFT_RIGHT: KeyboardModifiers = KeyboardModifiers { bits: 1 << 3 };

    pub const ALT: KeyboardModifiers = KeyboardModifiers { bits: 1 << 4 };

    pub const ALT_GR: KeyboardModifiers = KeyboardModifiers { bits: 1 << 5 };

    pub const SUPER_KEY_LEFT: KeyboardModifiers = KeyboardModifiers { bits: 1 << 6 };

    pub const SUPER_KEY_RIGHT: KeyboardModifiers = KeyboardModifiers { bits: 1 << 7 };

    pub const CAPS_LOCK: KeyboardModifiers = KeyboardModifiers { bits: 1 << 8 };

    pub const NUM_LOCK: KeyboardModifiers = KeyboardModifiers { bits: 1 << 9 };

    pub const SCROLL_LOCK: KeyboardModifiers = KeyboardModifiers { bits: 1 << 10 };

    // No flag.
    pub const fn empty() -> Self
        ensures { result.bits ≡ 0 }
    {
        Self { bits: 0 }
    }

    // The flags of a word; none where it has a bit of no flag.
    pub fn from_bits(bits: u16) -> Option<Self>
        ensures { result ≡ checked bits }
    {
        (bits < 1 << 11).then_some(Self { bits })
    }

    // Every flag of either.
    pub fn insert(&mut self, other: Self)
        ensures { self.new.bits ≡ bitwise ◌||◌ 16 self.old.bits other.bits }
    {
        self.bits |= other.bits;
    }

    // The flags that are not in `other`.
    pub fn remove(&mut self, other: Self)
        ensures { self.new.bits ≡ bitwise without 16 self.old.bits other.bits }
    {
        self.bits &= !other.bits;
    }

    // The flags of exactly one of the two.
    pub fn toggle(&mut self, other: Self)
        ensures { self.new.bits ≡ bitwise xor 16 self.old.bits other.bits }
    {
        self.bits ^= other.bits;
    }

    // Whether the two share a flag.
    pub fn intersects(&self, other: Self) -> bool
        ensures { result ≡ meet 16 self.now.bits other.bits }
    {
        self.bits & other.bits != 0
    }
}

impl BitOr for KeyboardModifiers {
    type Output = Self;

    ghost bitor_gives = { λ a b r. r.bits ≡ bitwise ◌||◌ 16 a.bits b.bits };

    fn bitor(self, other: Self) -> Self {
        Self {
            bits: self.bits | other.bits,
        }
    }
}

impl Default for KeyboardModifiers {
    ghost is_default = { λ m. m.bits ≡ 0 };

    fn default() -> Self {
        Self::new()
    }
}

impl KeyboardModifiers {
    /// Returns a new `KeyboardModifiers` struct with no keys pressed.
    pub const fn new() -> KeyboardModifiers
        ensures { result.bits ≡ 0 }
    {
        Self::empty()
    }

    /// Returns `true` if a `Shift` key is held down (either left or right).
    #[inline(always)]
    pub fn is_shift(&self) -> bool
        ensures { result ≡ (bit shift_left self.now.bits || bit shift_right self.now.bits) }
    {
        self.intersects(Self::SHIFT_LEFT | Self::SHIFT_RIGHT)
    }

    /// Returns `true` if a `Control` key is held down (either left or right).
    #[inline(always)]
    pub fn is_control(&self) -> bool
        ensures { result ≡ (bit control_left self.now.bits || bit control_right self.now.bits) }
    {
        self.intersects(Self::CONTROL_LEFT | Self::CONTROL_RIGHT)
    }

    /// Returns `true` if the `Alt` key is held down.
    #[inline(always)]
    pub fn is_alt(&self) -> bool
        ensures { result ≡ bit alt self.now.bits }
    {
        self.intersects(Self::ALT)
    }

    /// Returns `true` if the `AltGr` key is held down.
    #[inline(always)]
    pub fn is_alt_gr(&self) -> bool
        ensures { result ≡ bit alt_gr self.now.bits }
    {
        self.intersects(Self::ALT_GR)
    }

    /// Returns `true` if a Super key is held down (either left or right).
    ///
    /// Examples include the Windows key, the Meta key, the command key, etc.
    #[inline(always)]
    pub fn is_super_key(&self) -> bool
        ensures { result ≡ (bit super_key_left self.now.bits || bit super_key_right self.now.bits) }
    {
        self.intersects(Self::SUPER_KEY_LEFT | Self::SUPER_KEY_RIGHT)
    }

    /// Returns `true` if the `Caps Lock` key is held down.
    #[inline(always)]
    pub fn is_caps_lock(&self) -> bool
        ensures { result ≡ bit caps_lock self.now.bits }
    {
        self.intersects(Self::CAPS_LOCK)
    }

    /// Returns `true` if the `Num Lock` key is held down.
    #[inline(always)]
    pub fn is_num_lock(&self) -> bool
        ensures { result ≡ bit num_lock self.now.bits }
    {
        self.intersects(Self::NUM_LOCK)
    }

    /// Returns `true` if the `Scroll Lock` key is held down.
    #[inline(always)]
    pub fn is_scroll_lock(&self) -> bool
        ensures { result ≡ bit scroll_lock self.now.bits }
    {
        self.intersects(Self::SCROLL_LOCK)
    }
}

/// Whether a keyboard event was a key press or a key released.
#[derive(Clone, Copy, PartialEq, Eq)]
pub enum KeyAction {
    Pressed,
    Released,
}

/// The KeyEvent that should be delivered to applications upon a keyboard action.
#[derive(Clone, Copy, PartialEq, Eq)]
pub struct KeyEvent {
    pub keycode: Keycode,
    pub action: KeyAction,
    pub modifiers: KeyboardModifiers,
}

impl KeyEvent {
    pub fn new(keycode: Keycode, action: KeyAction, modifiers: KeyboardModifiers) -> KeyEvent
        ensures { (result.keycode ≡ keycode) × (result.action ≡ action)
            × (result.modifiers ≡ modifiers) }
    {
        KeyEvent {
            keycode,
            action,
            modifiers,
        }
    }
}

// FIXME: this is only true for scancode set 1, set 2 uses (0xF0, make-code),
// set 3 uses single byte make-codes and (0xF0, make-code) everywhere, no extended codes
/// The offset that a keyboard adds to the scancode
/// to indicate that the key was released rather than pressed.
/// So if a scancode of `1` means a key `foo` was pressed,
/// a scancode of `129` (1 + 128) means that key `foo` was released.
pub const KEY_RELEASED_OFFSET: u8 = 128;

/// convenience function for obtaining the ascii value for a raw scancode under the given modifiers
pub fn scancode_to_ascii(modifiers: KeyboardModifiers, scan_code: u8) -> Option<char>
    ensures { result ≡ scancode_character (ours_modifiers modifiers) scan_code }
{
    scan_code
        .try_into()
        .ok()
        .and_then(|k: Keycode| k.to_ascii(modifiers))
}

#[derive(Clone, Copy, PartialEq, Eq)]
pub enum Keycode {
    OverflowError = 0,
    Escape,
    Num1,
    Num2,
    Num3,
    Num4,
    Num5,
    Num6,
    Num7,
    Num8,
    Num9,
    Num0,
    Minus,
    Equals,
    Backspace,
    Tab,
    Q,
    W,
    E,
    R,
    T,
    Y,
    U,
    I,
    O,
    P,
    LeftBracket,
    RightBracket,
    Enter,
    Control,
    A,
    S,
    D,
    F,
    G,
    H,
    J,
    K,
    L,
    Semicolon,
    Quote,
    Backtick,
    LeftShift,
    Backslash,
    Z,
    X,
    C,
    V,
    B,
    N,
    M,
    Comma,
    Period,
    Slash,
    RightShift,
    PadMultiply, // Also PrintScreen
    Alt,
    Space,
    CapsLock,
    F1,
    F2,
    F3,
    F4,
    F5,
    F6,
    F7,
    F8,
    F9,
    F10,
    NumLock,
    ScrollLock,
    Home, // Also Pad7
    Up, // Also Pad8
    PageUp, // Also Pad9
    PadMinus,
    Left, // Also Pad4
    Pad5,
    Right, // Also Pad6
    PadPlus,
    End, // Also Pad1
    Down, // Also Pad2
    PageDown, // Also Pad3
    Insert, // Also Pad0
    Delete, // Also PadDecimal
    Unknown1,
    Unknown2,
    NonUsBackslash,
    F11,
    F12,
    Pause,
    Unknown3,
    SuperKeyLeft,
    SuperKeyRight,
    Menu,
    ControlReleased = 0x9D,
    AltReleased = 0xB8,
    LeftShiftReleased = 0xAA,
    RightShiftReleased = 0xB6,
    SuperKeyLeftReleased = 0xDB,
    SuperKeyRightReleased = 0xDC,
}

// A byte that is the number of no keycode.
#[derive(Clone, Copy, PartialEq, Eq)]
pub struct NoKeycode(pub u8);

// What `TryFromPrimitive` makes of the enum's numbers.
impl TryFrom<u8> for Keycode {
    type Error = NoKeycode;

    ghost try_from_gives = { λ byte read. read_as_ours read ≡ keycode_of byte };

    #[tactic(auto, unfolding(keycodes_ascii::specs::Keycode::keycode_of, keycodes_ascii::specs::Keycode::numbered, keycodes_ascii::specs::Keycode::keycodes))]
    fn try_from(byte: u8) -> Result<Self, NoKeycode> {
        match byte {
            0x00 => Ok(Keycode::OverflowError),
            0x01 => Ok(Keycode::Escape),
            0x02 => Ok(Keycode::Num1),
            0x03 => Ok(Keycode::Num2),
            0x04 => Ok(Keycode::Num3),
            0x05 => Ok(Keycode::Num4),
            0x06 => Ok(Keycode::Num5),
            0x07 => Ok(Keycode::Num6),
            0x08 => Ok(Keycode::Num7),
            0x09 => Ok(Keycode::Num8),
            0x0A => Ok(Keycode::Num9),
            0x0B => Ok(Keycode::Num0),
            0x0C => Ok(Keycode::Minus),
            0x0D => Ok(Keycode::Equals),
            0x0E => Ok(Keycode::Backspace),
            0x0F => Ok(Keycode::Tab),
            0x10 => Ok(Keycode::Q),
            0x11 => Ok(Keycode::W),
            0x12 => Ok(Keycode::E),
            0x13 => Ok(Keycode::R),
            0x14 => Ok(Keycode::T),
            0x15 => Ok(Keycode::Y),
            0x16 => Ok(Keycode::U),
            0x17 => Ok(Keycode::I),
            0x18 => Ok(Keycode::O),
            0x19 => Ok(Keycode::P),
            0x1A => Ok(Keycode::LeftBracket),
            0x1B => Ok(Keycode::RightBracket),
            0x1C => Ok(Keycode::Enter),
            0x1D => Ok(Keycode::Control),
            0x1E => Ok(Keycode::A),
            0x1F => Ok(Keycode::S),
            0x20 => Ok(Keycode::D),
            0x21 => Ok(Keycode::F),
            0x22 => Ok(Keycode::G),
            0x23 => Ok(Keycode::H),
            0x24 => Ok(Keycode::J),
            0x25 => Ok(Keycode::K),
            0x26 => Ok(Keycode::L),
            0x27 => Ok(Keycode::Semicolon),
            0x28 => Ok(Keycode::Quote),
            0x29 => Ok(Keycode::Backtick),
            0x2A => Ok(Keycode::LeftShift),
            0x2B => Ok(Keycode::Backslash),
            0x2C => Ok(Keycode::Z),
            0x2D => Ok(Keycode::X),
            0x2E => Ok(Keycode::C),
            0x2F => Ok(Keycode::V),
            0x30 => Ok(Keycode::B),
            0x31 => Ok(Keycode::N),
            0x32 => Ok(Keycode::M),
            0x33 => Ok(Keycode::Comma),
            0x34 => Ok(Keycode::Period),
            0x35 => Ok(Keycode::Slash),
            0x36 => Ok(Keycode::RightShift),
            0x37 => Ok(Keycode::PadMultiply),
            0x38 => Ok(Keycode::Alt),
            0x39 => Ok(Keycode::Space),
            0x3A => Ok(Keycode::CapsLock),
            0x3B => Ok(Keycode::F1),
            0x3C => Ok(Keycode::F2),
            0x3D => Ok(Keycode::F3),
            0x3E => Ok(Keycode::F4),
            0x3F => Ok(Keycode::F5),
            0x40 => Ok(Keycode::F6),
            0x41 => Ok(Keycode::F7),
            0x42 => Ok(Keycode::F8),
            0x43 => Ok(Keycode::F9),
            0x44 => Ok(Keycode::F10),
            0x45 => Ok(Keycode::NumLock),
            0x46 => Ok(Keycode::ScrollLock),
            0x47 => Ok(Keycode::Home),
            0x48 => Ok(Keycode::Up),
            0x49 => Ok(Keycode::PageUp),
            0x4A => Ok(Keycode::PadMinus),
            0x4B => Ok(Keycode::Left),
            0x4C => Ok(Keycode::Pad5),
            0x4D => Ok(Keycode::Right),
            0x4E => Ok(Keycode::PadPlus),
            0x4F => Ok(Keycode::End),
            0x50 => Ok(Keycode::Down),
            0x51 => Ok(Keycode::PageDown),
            0x52 => Ok(Keycode::Insert),
            0x53 => Ok(Keycode::Delete),
            0x54 => Ok(Keycode::Unknown1),
            0x55 => Ok(Keycode::Unknown2),
            0x56 => Ok(Keycode::NonUsBackslash),
            0x57 => Ok(Keycode::F11),
            0x58 => Ok(Keycode::F12),
            0x59 => Ok(Keycode::Pause),
            0x5A => Ok(Keycode::Unknown3),
            0x5B => Ok(Keycode::SuperKeyLeft),
            0x5C => Ok(Keycode::SuperKeyRight),
            0x5D => Ok(Keycode::Menu),
            0x9D => Ok(Keycode::ControlReleased),
            0xB8 => Ok(Keycode::AltReleased),
            0xAA => Ok(Keycode::LeftShiftReleased),
            0xB6 => Ok(Keycode::RightShiftReleased),
            0xDB => Ok(Keycode::SuperKeyLeftReleased),
            0xDC => Ok(Keycode::SuperKeyRightReleased),
            _ => Err(NoKeycode(byte)),
        }
    }
}

impl Keycode {
    /// Obtains the ascii value for a keycode under the given modifiers
    pub fn to_ascii(&self, modifiers: KeyboardModifiers) -> Option<char>
        ensures { result ≡ character_of (ours self.now) (ours_modifiers modifiers) }
    {
        // handle shift key being pressed
        if modifiers.is_shift() {
            if modifiers.is_caps_lock() && self.is_letter() {
                // if shift is pressed and caps lock is on, give a regular lowercase letter
                return self.as_ascii();
            } else {
                // if shift is pressed and caps lock is not, give a regular shifted key
                return self.as_ascii_shifted();
            }
        }

        // just a regular caps_lock, no shift pressed
        // (we already covered the shift && caps_lock scenario above)
        if modifiers.is_caps_lock() {
            if self.is_letter() {
                return self.as_ascii_shifted();
            } else {
                return self.as_ascii();
            }
        }

        // default to regular ascii value
        self.as_ascii()

        // TODO: handle numlock
    }

    /// returns true if this keycode was a letter from A-Z
    pub fn is_letter(&self) -> bool
        ensures { result ≡ is_letter (writes (ours self.now)) }
    {
        match *self {
            Keycode::Q
            | Keycode::W
            | Keycode::E
            | Keycode::R
            | Keycode::T
            | Keycode::Y
            | Keycode::U
            | Keycode::I
            | Keycode::O
            | Keycode::P
            | Keycode::A
            | Keycode::S
            | Keycode::D
            | Keycode::F
            | Keycode::G
            | Keycode::H
            | Keycode::J
            | Keycode::K
            | Keycode::L
            | Keycode::Z
            | Keycode::X
            | Keycode::C
            | Keycode::V
            | Keycode::B
            | Keycode::N
            | Keycode::M => true,

            _ => false,
        }
    }

    /// maps a Keycode to ASCII char values without any "shift" modifiers.
    fn as_ascii(&self) -> Option<char>
        ensures { result ≡ character (writes (ours self.now)) false false }
    {
        match *self {
            Keycode::Escape => Some(char::from(27)),
            Keycode::Num1 => Some('1'),
            Keycode::Num2 => Some('2'),
            Keycode::Num3 => Some('3'),
            Keycode::Num4 => Some('4'),
            Keycode::Num5 => Some('5'),
            Keycode::Num6 => Some('6'),
            Keycode::Num7 => Some('7'),
            Keycode::Num8 => Some('8'),
            Keycode::Num9 => Some('9'),
            Keycode::Num0 => Some('0'),
            Keycode::Minus => Some('-'),
            Keycode::Equals => Some('='),
            Keycode::Backspace => Some(char::from(8)),
            Keycode::Tab => Some(char::from(9)),
            Keycode::Q => Some('q'),
            Keycode::W => Some('w'),
            Keycode::E => Some('e'),
            Keycode::R => Some('r'),
            Keycode::T => Some('t'),
            Keycode::Y => Some('y'),
            Keycode::U => Some('u'),
            Keycode::I => Some('i'),
            Keycode::O => Some('o'),
            Keycode::P => Some('p'),
            Keycode::LeftBracket => Some('['),
            Keycode::RightBracket => Some(']'),
            Keycode::Enter => Some('\n'),
            Keycode::A => Some('a'),
            Keycode::S => Some('s'),
            Keycode::D => Some('d'),
            Keycode::F => Some('f'),
            Keycode::G => Some('g'),
            Keycode::H => Some('h'),
            Keycode::J => Some('j'),
            Keycode::K => Some('k'),
            Keycode::L => Some('l'),
            Keycode::Semicolon => Some(';'),
            Keycode::Quote => Some('\''),
            Keycode::Backtick => Some('`'),
            Keycode::Backslash => Some('\\'),
            Keycode::Z => Some('z'),
            Keycode::X => Some('x'),
            Keycode::C => Some('c'),
            Keycode::V => Some('v'),
            Keycode::B => Some('b'),
            Keycode::N => Some('n'),
            Keycode::M => Some('m'),
            Keycode::Comma => Some(','),
            Keycode::Period => Some('.'),
            Keycode::Slash => Some('/'),
            Keycode::Space => Some(' '),
            Keycode::PadMultiply => Some('*'),
            Keycode::PadMinus => Some('-'),
            Keycode::PadPlus => Some('+'),
            // PadSlash / PadDivide??
            _ => None,
        }
    }

    /// same as as_ascii, but adds the effect of the "shift" modifier key.
    /// If a Keycode's ascii value doesn't change when shifted,
    /// then it defaults to it's non-shifted value as returned by as_ascii().
    fn as_ascii_shifted(&self) -> Option<char>
        ensures { result ≡ character (writes (ours self.now)) true false }
    {
        match *self {
            Keycode::Num1 => Some('!'),
            Keycode::Num2 => Some('@'),
            Keycode::Num3 => Some('#'),
            Keycode::Num4 => Some('$'),
            Keycode::Num5 => Some('%'),
            Keycode::Num6 => Some('^'),
            Keycode::Num7 => Some('&'),
            Keycode::Num8 => Some('*'),
            Keycode::Num9 => Some('('),
            Keycode::Num0 => Some(')'),
            Keycode::Minus => Some('_'),
            Keycode::Equals => Some('+'),
            Keycode::Q => Some('Q'),
            Keycode::W => Some('W'),
            Keycode::E => Some('E'),
            Keycode::R => Some('R'),
            Keycode::T => Some('T'),
            Keycode::Y => Some('Y'),
            Keycode::U => Some('U'),
            Keycode::I => Some('I'),
            Keycode::O => Some('O'),
            Keycode::P => Some('P'),
            Keycode::LeftBracket => Some('{'),
            Keycode::RightBracket => Some('}'),
            Keycode::A => Some('A'),
            Keycode::S => Some('S'),
            Keycode::D => Some('D'),
            Keycode::F => Some('F'),
            Keycode::G => Some('G'),
            Keycode::H => Some('H'),
            Keycode::J => Some('J'),
            Keycode::K => Some('K'),
            Keycode::L => Some('L'),
            Keycode::Semicolon => Some(':'),
            Keycode::Quote => Some('"'),
            Keycode::Backtick => Some('~'),
            Keycode::Backslash => Some('|'),
            Keycode::Z => Some('Z'),
            Keycode::X => Some('X'),
            Keycode::C => Some('C'),
            Keycode::V => Some('V'),
            Keycode::B => Some('B'),
            Keycode::N => Some('N'),
            Keycode::M => Some('M'),
            Keycode::Comma => Some('<'),
            Keycode::Period => Some('>'),
            Keycode::Slash => Some('?'),

            _ => self.as_ascii(),
        }
    }
}
