// The modifier flags: Theseus's `KeyboardModifiers`.
#![tactic(auto)]

ghost use Rattle.std.specs.Prelude.{◌≡◌, ◌||◌};
ghost use Rattle.std.specs.Bool.{xor};
ghost use Rattle.bits.specs.Bits.{bit, bitwise, meet, without};
ghost use Rattle.keyboard_modifiers.specs.Flags.{shift_left, shift_right, control_left, control_right, alt, super_key_left, super_key_right, caps_lock, num_lock, scroll_lock, alt_right};

/// The modifier keys that are held down, and the locks that are on: a bit for each.
#[derive(Clone, Copy, PartialEq, Eq)]
pub struct KeyboardModifiers {
    pub bits: u16,
}

impl KeyboardModifiers {
    /// Bit 0: the left Shift is held.
    pub const SHIFT_LEFT: KeyboardModifiers = KeyboardModifiers { bits: 1 << 0 };

    /// Bit 1: the right Shift is held.
    pub const SHIFT_RIGHT: KeyboardModifiers = KeyboardModifiers { bits: 1 << 1 };

    /// Bit 2: the left Control is held.
    pub const CONTROL_LEFT: KeyboardModifiers = KeyboardModifiers { bits: 1 << 2 };

    /// Bit 3: the right Control is held.
    pub const CONTROL_RIGHT: KeyboardModifiers = KeyboardModifiers { bits: 1 << 3 };

    /// Bit 4: an Alt is held, either one.
    pub const ALT: KeyboardModifiers = KeyboardModifiers { bits: 1 << 4 };

    /// Bit 5: the left super key is held.
    pub const SUPER_KEY_LEFT: KeyboardModifiers = KeyboardModifiers { bits: 1 << 5 };

    /// Bit 6: the right super key is held.
    pub const SUPER_KEY_RIGHT: KeyboardModifiers = KeyboardModifiers { bits: 1 << 6 };

    /// Bit 7: Caps Lock is on.
    pub const CAPS_LOCK: KeyboardModifiers = KeyboardModifiers { bits: 1 << 7 };

    /// Bit 8: Num Lock is on.
    pub const NUM_LOCK: KeyboardModifiers = KeyboardModifiers { bits: 1 << 8 };

    /// Bit 9: Scroll Lock is on.
    pub const SCROLL_LOCK: KeyboardModifiers = KeyboardModifiers { bits: 1 << 9 };

    /// Bit 10: the right Alt is held; `ALT` is on then too.
    pub const ALT_RIGHT: KeyboardModifiers = KeyboardModifiers { bits: 1 << 10 };

    /// No key held and no lock on.
    pub fn new() -> KeyboardModifiers
        ensures { result.bits ≡ 0 }
    {
        KeyboardModifiers { bits: 0 }
    }

    /// Every flag of either.
    pub fn insert(self, other: KeyboardModifiers) -> KeyboardModifiers
        ensures { result.bits ≡ bitwise ◌||◌ 16 self.bits other.bits }
    {
        KeyboardModifiers {
            bits: self.bits | other.bits,
        }
    }

    /// The flags that are not in `other`.
    pub fn remove(self, other: KeyboardModifiers) -> KeyboardModifiers
        ensures { result.bits ≡ bitwise without 16 self.bits other.bits }
    {
        KeyboardModifiers {
            bits: self.bits & !other.bits,
        }
    }

    /// The flags of exactly one of the two.
    pub fn toggle(self, other: KeyboardModifiers) -> KeyboardModifiers
        ensures { result.bits ≡ bitwise xor 16 self.bits other.bits }
    {
        KeyboardModifiers {
            bits: self.bits ^ other.bits,
        }
    }

    /// Whether the two share a flag.
    pub fn intersects(self, other: KeyboardModifiers) -> bool
        ensures { result ≡ meet 16 self.bits other.bits }
    {
        self.bits & other.bits != 0
    }

    /// Whether a Shift key is held down, left or right.
    pub fn is_shift(self) -> bool
        ensures { result ≡ (bit shift_left self.bits || bit shift_right self.bits) }
    {
        self.intersects(KeyboardModifiers::SHIFT_LEFT.insert(KeyboardModifiers::SHIFT_RIGHT))
    }

    /// Whether a Control key is held down, left or right.
    pub fn is_control(self) -> bool
        ensures { result ≡ (bit control_left self.bits || bit control_right self.bits) }
    {
        self.intersects(KeyboardModifiers::CONTROL_LEFT.insert(KeyboardModifiers::CONTROL_RIGHT))
    }

    /// Whether the Alt key is held down.
    pub fn is_alt(self) -> bool
        ensures { result ≡ bit alt self.bits }
    {
        self.intersects(KeyboardModifiers::ALT)
    }

    /// Whether the right Alt key, AltGr, is held down.
    pub fn is_alt_gr(self) -> bool
        ensures { result ≡ bit alt_right self.bits }
    {
        self.intersects(KeyboardModifiers::ALT_RIGHT)
    }

    /// Whether a Super key is held down, left or right.
    pub fn is_super_key(self) -> bool
        ensures { result ≡ (bit super_key_left self.bits || bit super_key_right self.bits) }
    {
        self.intersects(KeyboardModifiers::SUPER_KEY_LEFT.insert(
            KeyboardModifiers::SUPER_KEY_RIGHT,
        ))
    }

    /// Whether Caps Lock is on.
    pub fn is_caps_lock(self) -> bool
        ensures { result ≡ bit caps_lock self.bits }
    {
        self.intersects(KeyboardModifiers::CAPS_LOCK)
    }

    /// Whether Num Lock is on.
    pub fn is_num_lock(self) -> bool
        ensures { result ≡ bit num_lock self.bits }
    {
        self.intersects(KeyboardModifiers::NUM_LOCK)
    }

    /// Whether Scroll Lock is on.
    pub fn is_scroll_lock(self) -> bool
        ensures { result ≡ bit scroll_lock self.bits }
    {
        self.intersects(KeyboardModifiers::SCROLL_LOCK)
    }
}
