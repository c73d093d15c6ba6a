// Keycodes, key events and characters: Theseus's `keycodes_ascii`.
#![tactic(auto)]

ghost use Rattle.std.specs.Prelude.{◌≡◌};
ghost use Rattle.keycodes_ascii.specs.Keycode.{number_of, keycode_read};
ghost use Rattle.keycodes_ascii.specs.Characters.{writes, is_letter, character_of, scancode_character};
ghost use Rattle.keycodes_ascii.specs.CharacterTable.{entry_character, column_of};

use keyboard_modifiers::KeyboardModifiers;
use layout::CHARACTERS;

mod layout;

/// Whether a key was pressed or released.
#[derive(Clone, Copy, PartialEq, Eq)]
pub enum KeyAction {
    Pressed,
    Released,
}

/// What a keyboard action gives to applications.
#[derive(Clone, Copy, PartialEq, Eq)]
pub struct KeyEvent {
    pub keycode: Keycode,
    pub action: KeyAction,
    pub modifiers: KeyboardModifiers,
}

impl KeyEvent {
    /// The event of a key, with the flags as they are after its byte.
    pub fn new(keycode: Keycode, action: KeyAction, modifiers: KeyboardModifiers) -> KeyEvent
        ensures { (result.keycode ≡ keycode) × (result.action ≡ action)
            × (result.modifiers ≡ modifiers) }
    {
        KeyEvent {
            keycode,
            action,
            modifiers,
        }
    }
}

/// What a keyboard adds to a key's press code in scan code set 1 to say that the key was released.
pub const KEY_RELEASED_OFFSET: u8 = 128;

// The character that an entry of the table stands for.
fn of_entry(entry: u8) -> Option<u8>
    ensures { result ≡ entry_character entry }
{
    (entry != 0).then_some(entry)
}

/// The character of a raw scancode under the given modifiers.
pub fn scancode_to_ascii(modifiers: KeyboardModifiers, scan_code: u8) -> Option<u8>
    ensures { result ≡ scancode_character modifiers scan_code }
{
    Keycode::try_from(scan_code).ok()?.to_ascii(modifiers)
}

/// The key of an event, by its press code. The last six are release codes, which occur in no event.
#[derive(Clone, Copy, PartialEq, Eq)]
pub enum Keycode {
    OverflowError = 0x00,
    Escape = 0x01,
    Num1 = 0x02,
    Num2 = 0x03,
    Num3 = 0x04,
    Num4 = 0x05,
    Num5 = 0x06,
    Num6 = 0x07,
    Num7 = 0x08,
    Num8 = 0x09,
    Num9 = 0x0A,
    Num0 = 0x0B,
    Minus = 0x0C,
    Equals = 0x0D,
    Backspace = 0x0E,
    Tab = 0x0F,
    Q = 0x10,
    W = 0x11,
    E = 0x12,
    R = 0x13,
    T = 0x14,
    Y = 0x15,
    U = 0x16,
    I = 0x17,
    O = 0x18,
    P = 0x19,
    LeftBracket = 0x1A,
    RightBracket = 0x1B,
    Enter = 0x1C,
    Control = 0x1D,
    A = 0x1E,
    S = 0x1F,
    D = 0x20,
    F = 0x21,
    G = 0x22,
    H = 0x23,
    J = 0x24,
    K = 0x25,
    L = 0x26,
    Semicolon = 0x27,
    Quote = 0x28,
    Backtick = 0x29,
    LeftShift = 0x2A,
    Backslash = 0x2B,
    Z = 0x2C,
    X = 0x2D,
    C = 0x2E,
    V = 0x2F,
    B = 0x30,
    N = 0x31,
    M = 0x32,
    Comma = 0x33,
    Period = 0x34,
    Slash = 0x35,
    RightShift = 0x36,
    PadMultiply = 0x37, // Also PrintScreen
    Alt = 0x38,
    Space = 0x39,
    CapsLock = 0x3A,
    F1 = 0x3B,
    F2 = 0x3C,
    F3 = 0x3D,
    F4 = 0x3E,
    F5 = 0x3F,
    F6 = 0x40,
    F7 = 0x41,
    F8 = 0x42,
    F9 = 0x43,
    F10 = 0x44,
    NumLock = 0x45,
    ScrollLock = 0x46,
    Home = 0x47, // Also Pad7
    Up = 0x48, // Also Pad8
    PageUp = 0x49, // Also Pad9
    PadMinus = 0x4A,
    Left = 0x4B, // Also Pad4
    Pad5 = 0x4C,
    Right = 0x4D, // Also Pad6
    PadPlus = 0x4E,
    End = 0x4F, // Also Pad1
    Down = 0x50, // Also Pad2
    PageDown = 0x51, // Also Pad3
    Insert = 0x52, // Also Pad0
    Delete = 0x53, // Also PadDecimal
    Unknown1 = 0x54,
    Unknown2 = 0x55,
    NonUsBackslash = 0x56,
    F11 = 0x57,
    F12 = 0x58,
    Pause = 0x59,
    Unknown3 = 0x5A,
    SuperKeyLeft = 0x5B,
    SuperKeyRight = 0x5C,
    Menu = 0x5D,
    ControlReleased = 0x9D,
    AltReleased = 0xB8,
    LeftShiftReleased = 0xAA,
    RightShiftReleased = 0xB6,
    SuperKeyLeftReleased = 0xDB,
    SuperKeyRightReleased = 0xDC,
}

/// A byte that is the number of no keycode.
#[derive(Clone, Copy, PartialEq, Eq)]
pub struct NoKeycode(pub u8);

impl TryFrom<u8> for Keycode {
    type Error = NoKeycode;

    ghost try_from_gives = { λ byte r. r ≡ keycode_read byte };

    // The enum's numbers once more.
    #[tactic(auto, unfolding(crate::specs::Keycode::keycode_of, crate::specs::Keycode::numbered, crate::specs::Keycode::keycodes))]
    #[inline(always)]
    fn try_from(byte: u8) -> Result<Keycode, NoKeycode> {
        let keycode = match byte {
            0x00 => Keycode::OverflowError,
            0x01 => Keycode::Escape,
            0x02 => Keycode::Num1,
            0x03 => Keycode::Num2,
            0x04 => Keycode::Num3,
            0x05 => Keycode::Num4,
            0x06 => Keycode::Num5,
            0x07 => Keycode::Num6,
            0x08 => Keycode::Num7,
            0x09 => Keycode::Num8,
            0x0A => Keycode::Num9,
            0x0B => Keycode::Num0,
            0x0C => Keycode::Minus,
            0x0D => Keycode::Equals,
            0x0E => Keycode::Backspace,
            0x0F => Keycode::Tab,
            0x10 => Keycode::Q,
            0x11 => Keycode::W,
            0x12 => Keycode::E,
            0x13 => Keycode::R,
            0x14 => Keycode::T,
            0x15 => Keycode::Y,
            0x16 => Keycode::U,
            0x17 => Keycode::I,
            0x18 => Keycode::O,
            0x19 => Keycode::P,
            0x1A => Keycode::LeftBracket,
            0x1B => Keycode::RightBracket,
            0x1C => Keycode::Enter,
            0x1D => Keycode::Control,
            0x1E => Keycode::A,
            0x1F => Keycode::S,
            0x20 => Keycode::D,
            0x21 => Keycode::F,
            0x22 => Keycode::G,
            0x23 => Keycode::H,
            0x24 => Keycode::J,
            0x25 => Keycode::K,
            0x26 => Keycode::L,
            0x27 => Keycode::Semicolon,
            0x28 => Keycode::Quote,
            0x29 => Keycode::Backtick,
            0x2A => Keycode::LeftShift,
            0x2B => Keycode::Backslash,
            0x2C => Keycode::Z,
            0x2D => Keycode::X,
            0x2E => Keycode::C,
            0x2F => Keycode::V,
            0x30 => Keycode::B,
            0x31 => Keycode::N,
            0x32 => Keycode::M,
            0x33 => Keycode::Comma,
            0x34 => Keycode::Period,
            0x35 => Keycode::Slash,
            0x36 => Keycode::RightShift,
            0x37 => Keycode::PadMultiply,
            0x38 => Keycode::Alt,
            0x39 => Keycode::Space,
            0x3A => Keycode::CapsLock,
            0x3B => Keycode::F1,
            0x3C => Keycode::F2,
            0x3D => Keycode::F3,
            0x3E => Keycode::F4,
            0x3F => Keycode::F5,
            0x40 => Keycode::F6,
            0x41 => Keycode::F7,
            0x42 => Keycode::F8,
            0x43 => Keycode::F9,
            0x44 => Keycode::F10,
            0x45 => Keycode::NumLock,
            0x46 => Keycode::ScrollLock,
            0x47 => Keycode::Home,
            0x48 => Keycode::Up,
            0x49 => Keycode::PageUp,
            0x4A => Keycode::PadMinus,
            0x4B => Keycode::Left,
            0x4C => Keycode::Pad5,
            0x4D => Keycode::Right,
            0x4E => Keycode::PadPlus,
            0x4F => Keycode::End,
            0x50 => Keycode::Down,
            0x51 => Keycode::PageDown,
            0x52 => Keycode::Insert,
            0x53 => Keycode::Delete,
            0x54 => Keycode::Unknown1,
            0x55 => Keycode::Unknown2,
            0x56 => Keycode::NonUsBackslash,
            0x57 => Keycode::F11,
            0x58 => Keycode::F12,
            0x59 => Keycode::Pause,
            0x5A => Keycode::Unknown3,
            0x5B => Keycode::SuperKeyLeft,
            0x5C => Keycode::SuperKeyRight,
            0x5D => Keycode::Menu,
            0x9D => Keycode::ControlReleased,
            0xB8 => Keycode::AltReleased,
            0xAA => Keycode::LeftShiftReleased,
            0xB6 => Keycode::RightShiftReleased,
            0xDB => Keycode::SuperKeyLeftReleased,
            0xDC => Keycode::SuperKeyRightReleased,
            _ => return Err(NoKeycode(byte)),
        };
        Ok(keycode)
    }
}

impl From<Keycode> for u8 {
    ghost from_gives = { λ keycode byte. byte ≡ number_of keycode };

    #[inline(always)]
    fn from(keycode: Keycode) -> u8 {
        keycode as u8
    }
}

// The column of the table with Shift or without, with Caps Lock or without.
fn column(shift: bool, caps_lock: bool) -> usize
    ensures { result ≡ column_of shift caps_lock }
{
    match (shift, caps_lock) {
        (false, false) => 0,
        (true, false) => 1,
        (false, true) => 2,
        (true, true) => 3,
    }
}

impl Keycode {
    /// The character of this key under the given modifiers: the table's entry. The release codes
    /// have no row, and no character.
    pub fn to_ascii(self, modifiers: KeyboardModifiers) -> Option<u8>
        ensures { result ≡ character_of self modifiers }
    {
        let at = column(modifiers.is_shift(), modifiers.is_caps_lock());
        match CHARACTERS.get(usize::from(u8::from(self))) {
            Some(row) => of_entry(row[at]),
            None => None,
        }
    }

    /// Whether this is a letter from A to Z.
    pub fn is_letter(self) -> bool
        ensures { result ≡ is_letter (writes self) }
    {
        matches!(
            self,
            Keycode::Q
                | Keycode::W
                | Keycode::E
                | Keycode::R
                | Keycode::T
                | Keycode::Y
                | Keycode::U
                | Keycode::I
                | Keycode::O
                | Keycode::P
                | Keycode::A
                | Keycode::S
                | Keycode::D
                | Keycode::F
                | Keycode::G
                | Keycode::H
                | Keycode::J
                | Keycode::K
                | Keycode::L
                | Keycode::Z
                | Keycode::X
                | Keycode::C
                | Keycode::V
                | Keycode::B
                | Keycode::N
                | Keycode::M
        )
    }
}
