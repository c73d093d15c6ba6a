// The Rust's functions on keys and characters, and ours, on the same keys and flags: their answers are equal for every one.
ghost use Rattle.std.specs.Prelude.{◌≡◌};
ghost use Rattle.std.specs.Result.{result_ok};
ghost use Rattle.theseus_keycodes.specs.Events.{our_action, our_event};
ghost use Rattle.theseus_keycodes.specs.Flags.{ours_modifiers};
ghost use Rattle.theseus_keycodes.specs.Keycode.{ours, read_as_ours};

use crate::{KeyAction, KeyEvent, KeyboardModifiers, Keycode, NoKeycode};
use keyboard_modifiers::KeyboardModifiers as OurModifiers;
use keycodes_ascii::{
    KeyAction as OurAction, KeyEvent as OurEvent, Keycode as OurKeycode, NoKeycode as OurNoKeycode,
};

/// What the two come to.
#[derive(Clone, Copy)]
pub struct BothKeycodes {
    pub ours: Result<OurKeycode, OurNoKeycode>,
    pub rusts: Result<Keycode, NoKeycode>,
}

/// A key's character by ours and by the Rust.
#[derive(Clone, Copy)]
pub struct BothCharacters {
    pub ours: Option<u8>,
    pub rusts: Option<char>,
}

/// An event of ours, and the Rust's.
#[derive(Clone, Copy)]
pub struct BothEvents {
    pub ours: OurEvent,
    pub rusts: KeyEvent,
}

/// What ours and the Rust answer to one question.
#[derive(Clone, Copy)]
pub struct BothAnswers {
    pub ours: bool,
    pub rusts: bool,
}

/// What is asked of the two flags words: of ours by our list, of the Rust's by its own.
#[derive(Clone, Copy)]
pub struct BothQuestions {
    pub shift: BothAnswers,
    pub control: BothAnswers,
    pub alt: BothAnswers,
    pub alt_gr: BothAnswers,
    pub super_key: BothAnswers,
    pub caps_lock: BothAnswers,
    pub num_lock: BothAnswers,
    pub scroll_lock: BothAnswers,
}

/// The keycode of a byte: both have it, or neither has one.
pub fn both_try_from(byte: u8) -> BothKeycodes
    ensures { result_ok result.ours ≡ read_as_ours result.rusts }
{
    BothKeycodes {
        ours: OurKeycode::try_from(byte),
        rusts: Keycode::try_from(byte),
    }
}

/// The character of a key under some flags.
pub fn both_to_ascii(
    our_keycode: OurKeycode,
    our_modifiers: OurModifiers,
    keycode: Keycode,
    modifiers: KeyboardModifiers,
) -> BothCharacters
    ensures { our_keycode ≡ ours keycode → our_modifiers ≡ ours_modifiers modifiers → result.ours
        ≡ result.rusts }
{
    BothCharacters {
        ours: our_keycode.to_ascii(our_modifiers),
        rusts: keycode.to_ascii(modifiers),
    }
}

/// The character of a byte.
pub fn both_scancode_to_ascii(
    our_modifiers: OurModifiers,
    modifiers: KeyboardModifiers,
    scan_code: u8,
) -> BothCharacters
    ensures { our_modifiers ≡ ours_modifiers modifiers → result.ours ≡ result.rusts }
{
    BothCharacters {
        ours: keycodes_ascii::scancode_to_ascii(our_modifiers, scan_code),
        rusts: crate::scancode_to_ascii(modifiers, scan_code),
    }
}

/// Whether a key is a letter.
pub fn both_is_letter(our_keycode: OurKeycode, keycode: Keycode) -> BothAnswers
    ensures { our_keycode ≡ ours keycode → result.ours ≡ result.rusts }
{
    BothAnswers {
        ours: our_keycode.is_letter(),
        rusts: keycode.is_letter(),
    }
}

/// A key event.
pub fn both_new_event(
    our_keycode: OurKeycode,
    our_press: OurAction,
    our_modifiers: OurModifiers,
    keycode: Keycode,
    action: KeyAction,
    modifiers: KeyboardModifiers,
) -> BothEvents
    ensures { our_keycode ≡ ours keycode → our_press ≡ our_action action
        → our_modifiers ≡ ours_modifiers modifiers → result.ours ≡ our_event result.rusts }
{
    BothEvents {
        ours: OurEvent::new(our_keycode, our_press, our_modifiers),
        rusts: KeyEvent::new(keycode, action, modifiers),
    }
}

/// What is asked of flags.
pub fn both_questions(our_modifiers: OurModifiers, modifiers: KeyboardModifiers) -> BothQuestions
    ensures shift { our_modifiers ≡ ours_modifiers modifiers → result.shift.ours
        ≡ result.shift.rusts }
    ensures control { our_modifiers ≡ ours_modifiers modifiers → result.control.ours
        ≡ result.control.rusts }
    ensures alt { our_modifiers ≡ ours_modifiers modifiers → result.alt.ours ≡ result.alt.rusts }
    ensures alt_gr { our_modifiers ≡ ours_modifiers modifiers → result.alt_gr.ours
        ≡ result.alt_gr.rusts }
    ensures super_key { our_modifiers ≡ ours_modifiers modifiers → result.super_key.ours
        ≡ result.super_key.rusts }
    ensures caps_lock { our_modifiers ≡ ours_modifiers modifiers → result.caps_lock.ours
        ≡ result.caps_lock.rusts }
    ensures num_lock { our_modifiers ≡ ours_modifiers modifiers → result.num_lock.ours
        ≡ result.num_lock.rusts }
    ensures scroll_lock { our_modifiers ≡ ours_modifiers modifiers → result.scroll_lock.ours
        ≡ result.scroll_lock.rusts }
{
    BothQuestions {
        shift: BothAnswers {
            ours: our_modifiers.is_shift(),
            rusts: modifiers.is_shift(),
        },
        control: BothAnswers {
            ours: our_modifiers.is_control(),
            rusts: modifiers.is_control(),
        },
        alt: BothAnswers {
            ours: our_modifiers.is_alt(),
            rusts: modifiers.is_alt(),
        },
        alt_gr: BothAnswers {
            ours: our_modifiers.is_alt_gr(),
            rusts: modifiers.is_alt_gr(),
        },
        super_key: BothAnswers {
            ours: our_modifiers.is_super_key(),
            rusts: modifiers.is_super_key(),
        },
        caps_lock: BothAnswers {
            ours: our_modifiers.is_caps_lock(),
            rusts: modifiers.is_caps_lock(),
        },
        num_lock: BothAnswers {
            ours: our_modifiers.is_num_lock(),
            rusts: modifiers.is_num_lock(),
        },
        scroll_lock: BothAnswers {
            ours: our_modifiers.is_scroll_lock(),
            rusts: modifiers.is_scroll_lock(),
        },
    }
}
