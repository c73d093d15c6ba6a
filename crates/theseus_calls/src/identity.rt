// The mouse's operations that go by its identity.
ghost use Rattle.std.specs.Prelude.{◌≡◌};
ghost use Rattle.exchange.specs.Answer.{gives};
ghost use Rattle.argument_words.specs.Arguments.{invalid_argument, identity_at};
ghost use Rattle.port_words.specs.Tells.{Tells};
ghost use Rattle.ps2_kept.specs.Kept.{nothing_kept};
ghost use Rattle.ps2_kept.specs.Added.{keeping_onto};
ghost use Rattle.ps2_mouse_identity.specs.Identity.{set_mouse_id};
ghost use Rattle.ps2_packet_reading.specs.Reading.{read_mouse_packet};
ghost use Rattle.theseus_ps2.specs.Messages.{said};
ghost use Rattle.theseus_calls.specs.Left.{told_identified, identified_recorded, TellsIdentifiedAt};
ghost use Rattle.theseus_calls.specs.Packets.{packet_numbers, no_packet, packet_recorded, told_packet_noted, TellsPacketAt};

use crate::answers::{NotedWords, Run, begun, recorded_words, refusing_noted_words, run_of};
use argument_words::{INVALID_ARGUMENT, identity_of};
use port_words::{PortWords, Value, packet_words};
use ps2_answers::Counted;
use ps2_bytes::MouseId;
use ps2_packet::{MousePacket, SignedPacket};
use theseus_ps2::Recording;
use theseus_ps2::both_identity::{rusts_read_mouse_packet, rusts_set_mouse_id};

// What setting the identity of a record answered, and the identity that is left: as passed in where the run fell short.
fn identified_words(
    answer: Result<(), &'static str>,
    id: MouseId,
    left: &Recording<'_>,
    passed: MouseId,
) -> NotedWords
    ensures { result ≡ identified_recorded passed (said answer.entry) id left.now }
{
    let value = if left.short {
        passed.number()
    } else {
        id.number()
    };
    let words = recorded_words(answer, left);
    NotedWords {
        answer: PortWords {
            value,
            ..words.answer
        },
        ..words
    }
}

fn set_identity<'a>(id: MouseId, script: &'a [u8], log: &'a mut [u8]) -> Run<'a, NotedWords>
    ensures told { Tells (told_identified id)
        (keeping_onto nothing_kept (set_mouse_id (record { id = id }))) script.now log.old
        result.words result.log.now }
    ensures same_log { result.log.ghost_name ≡ log.entry.ghost_name }
{
    let mut controller = begun(script, log);
    let rusts = rusts_set_mouse_id(&mut controller, id);
    let words = identified_words(rusts.answer, rusts.id, &controller.hardware, id);
    run_of(words, controller.hardware)
}

/// Sets the identity of a record that has this one to the highest that the mouse takes on. The value is
/// the identity of the record that is left, after a refusal too.
#[unsafe(no_mangle)]
pub extern "C" fn vdr_mouse_set_identity(identity: u32, script: &[u8], log: &mut [u8]) -> NotedWords
    ensures { TellsIdentifiedAt (identity_at identity) script.now log.old result log.new }
{
    match identity_of(identity) {
        Some(id) => set_identity(id, script, log).words,
        None => refusing_noted_words(INVALID_ARGUMENT),
    }
}

/// A packet's fields: the buttons from bit 0 up are left, right, middle, fourth and fifth; the bit of the first byte
/// that is always one; the movements, the wheel unsigned at identity 4.
#[repr(C)]
#[derive(Clone, Copy)]
pub struct PacketFields {
    pub buttons: u32,
    pub always_one: u32,
    pub x: i32,
    pub y: i32,
    pub wheel: i32,
}

/// What a reading of a packet answers, and the packet, all 0 where there is none.
#[repr(C)]
#[derive(Clone, Copy)]
pub struct PacketNotedWords {
    pub run: NotedWords,
    pub packet: PacketFields,
}

const NO_PACKET: PacketFields = PacketFields {
    buttons: 0,
    always_one: 0,
    x: 0,
    y: 0,
    wheel: 0,
};

fn packet_fields(packet: MousePacket) -> PacketFields
    ensures { result ≡ packet_numbers packet }
{
    let words = packet_words(Ok(Counted {
        value: SignedPacket { packet },
        used: 0,
        pairs: 0,
    }));
    PacketFields {
        buttons: words.buttons,
        always_one: u32::from(packet.always_one()),
        x: words.x,
        y: words.y,
        wheel: i32::from(packet.scroll_movement()),
    }
}

fn packet_noted_words(packet: MousePacket, left: &Recording<'_>) -> PacketNotedWords
    ensures { result ≡ packet_recorded packet left.now }
{
    PacketNotedWords {
        packet: if left.short {
            NO_PACKET
        } else {
            packet_fields(packet)
        },
        run: recorded_words(Ok(()), left),
    }
}

fn read_packet<'a>(id: MouseId, script: &'a [u8], log: &'a mut [u8]) -> Run<'a, PacketNotedWords>
    ensures told { Tells told_packet_noted (keeping_onto nothing_kept (read_mouse_packet id))
        script.now log.old result.words result.log.now }
    ensures same_log { result.log.ghost_name ≡ log.entry.ghost_name }
{
    let mut controller = begun(script, log);
    let packet = rusts_read_mouse_packet(&mut controller, id);
    let words = packet_noted_words(packet, &controller.hardware);
    run_of(words, controller.hardware)
}

/// Reads the packet that a mouse of identity 0, 3 or 4 sends.
#[unsafe(no_mangle)]
pub extern "C" fn vdr_mouse_read_packet(
    identity: u32,
    script: &[u8],
    log: &mut [u8],
) -> PacketNotedWords
    ensures { TellsPacketAt (identity_at identity) script.now log.old result log.new }
{
    match identity_of(identity) {
        Some(id) => read_packet(id, script, log).words,
        None => PacketNotedWords {
            run: refusing_noted_words(INVALID_ARGUMENT),
            packet: NO_PACKET,
        },
    }
}
