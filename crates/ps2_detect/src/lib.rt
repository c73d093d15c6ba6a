// Detection of the keyboard's type.
#![tactic(auto)]

ghost use Rattle.std.specs.Prelude.{◌≡◌};
ghost use Rattle.exchange.specs.Exchange.{play};
ghost use Rattle.ps2_answers.specs.Answers.{told, ReadsTold};
ghost use Rattle.ps2_detect.specs.Detection.{type_search, keyboard_detect};
ghost use Rattle.ps2_detect.specs.Parts.{enabled_after, identification};
ghost use Rattle.ps2_detect.specs.Answers.{said_found, second_byte_read};

use ps2_answers::{Answer, Counted, Failure, Refusal, outcome};
use ps2_bytes::{HostToDevice, HostToKeyboardCommand, HostToKeyboardCommandOrData, KeyboardType};
use ps2_command::command_pair;
use ps2_keyboard::command_to_keyboard;
use ps2_polling::{POLL_LIMIT, poll_data};
use ps2_ports::DevicePort;

// The first byte of a keyboard's identity: an ancient
// keyboard has no other, and the others have a second one.
const ANCIENT: u8 = 0x00;

const MF2: u8 = 0xAB;

/// Detects the type of the keyboard.
/// OSDev Wiki, "8042 PS/2 Controller", "Detecting PS/2 Device Types". Refused: 2 to 7, unknown
/// keyboard (12).
pub fn keyboard_detect(script: &[u8], log: &mut [u8]) -> Answer<KeyboardType>
    ensures { told result log.new ≡ play keyboard_detect script.now log.old }
{
    let asked = command_pair(
        script,
        log,
        DevicePort::Port1,
        HostToDevice::Keyboard(HostToKeyboardCommandOrData::KeyboardCommand(
            HostToKeyboardCommand::DisableScanning,
        )),
        HostToDevice::Keyboard(HostToKeyboardCommandOrData::KeyboardCommand(
            HostToKeyboardCommand::IdentifyKeyboard,
        )),
    )
    .answer?;
    let tail = 2 * asked.pairs;
    asked.then(identify(&script[asked.used..], &mut log[tail..]))
}

// Searches for the type. Scanning is enabled again whether
// one was recognised or not, and not where the script ended.
fn identify(script: &[u8], log: &mut [u8]) -> Answer<KeyboardType>
    ensures { told result log.new ≡ play identification script.now log.old }
{
    let found = outcome(poll_keyboard_type(script))?;
    found.then(enable_scanning(&script[found.used..], log, found.value))
}

// Enables scanning after a search; the keyboard's refusal outweighs what was found.
fn enable_scanning(
    script: &[u8],
    log: &mut [u8],
    found: Result<KeyboardType, Failure>,
) -> Answer<KeyboardType>
    ensures { told result log.new ≡ play (enabled_after (said_found found)) script.now log.old }
{
    let enabled = command_to_keyboard(
        script,
        log,
        HostToKeyboardCommandOrData::KeyboardCommand(HostToKeyboardCommand::EnableScanning),
    );
    let accepted = enabled.answer?;
    accepted.conclude(found)
}

// Polls for the keyboard's identity. After AB the inner
// search decides, and the outer one does not go on.
// Nested `loop`s, left by a label.
fn poll_keyboard_type(script: &[u8]) -> Answer<KeyboardType>
    ensures { ReadsTold type_search script.now result }
{
    let mut at = Counted::new(None);
    let mut polls = POLL_LIMIT;
    'outer: loop {
        if polls == 0 {
            break Err(at.with(Refusal::Failed(Failure::UnknownKeyboard)));
        }
        at = at.then(poll_data(&script[at.used..]))?;
        if let Some(first) = at.value {
            if first == ANCIENT {
                break Ok(at.with(KeyboardType::AncientATKeyboard));
            }
            if first == MF2 {
                let mut inner_polls = POLL_LIMIT;
                loop {
                    if inner_polls == 0 {
                        break 'outer Err(at.with(Refusal::Failed(Failure::UnknownKeyboard)));
                    }
                    at = at.then(poll_data(&script[at.used..]))?;
                    if let Some(second) = at.value {
                        if let Some(recognised) = second_byte(second) {
                            break 'outer Ok(at.with(recognised));
                        }
                    }
                    inner_polls -= 1;
                }
            }
        }
        polls -= 1;
    }
}

// What the second byte of an identity says of the keyboard. Two bytes say the translated one.
fn second_byte(byte: u8) -> Option<KeyboardType>
    ensures { result ≡ second_byte_read byte }
{
    match byte {
        0x41 => Some(KeyboardType::MF2KeyboardWithPSControllerTranslator),
        0xC1 => Some(KeyboardType::MF2KeyboardWithPSControllerTranslator),
        0x83 => Some(KeyboardType::MF2Keyboard),
        _ => None,
    }
}
