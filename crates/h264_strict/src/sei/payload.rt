//! Whether a message is as its syntax says (7.3.2.3.1, D.1, D.2).
#![tactic(auto)]

ghost use Rattle.std.specs.Prelude.{◌≡◌, ◌+◌, ◌*◌, ◌%◌, ◌≤◌, ◌<◌, ◌^◌, length, drop, IfSome};
ghost use Rattle.h264_strict.specs.SeiMessages.{ff_bytes, payload_value, payload_start};
ghost use Rattle.h264_strict.specs.SeiPayload.{is_closed, is_filler_payload, is_registered, is_read, content_by, holds, fills_up, message_at};
ghost use Rattle.h264_strict.specs.SeiContent.{has_syntax};
ghost use Rattle.h264_strict.specs.SeiPart.{read_so};

use crate::sei::content::content;
use crate::sei::messages::{after, ff_bytes, message_length};
use crate::sei::part::u;
use crate::sei::timing::{KnownSet, buffering_period, pic_timing};
use h264_bits::Bits;
use h264_rbsp::Rbsp;

/// payloadType of buffering_period().
pub(crate) const BUFFERING_PERIOD: usize = 0;

/// payloadType of pic_timing().
pub(crate) const PIC_TIMING: usize = 1;

/// payloadType of filler_payload().
const FILLER_PAYLOAD: usize = 3;

/// payloadType of user_data_registered_itu_t_t35().
const REGISTERED: usize = 4;

/// payloadType of user_data_unregistered().
const UNREGISTERED: usize = 5;

/// The bytes of uuid_iso_iec_11578.
const UUID: usize = 16;

/// A message of SEI.
#[derive(Clone, Copy)]
pub struct Message {
    pub payload_type: usize,
    /// The byte of the RBSP where its payload begins.
    pub from: usize,
    /// The byte of the RBSP after its last.
    pub end: usize,
    /// Whether it is as its syntax says, or not judged.
    pub holds: bool,
}

/// Whether the payload ends at bit `end` of the RBSP, the first of a byte, after the content that was read.
fn is_closed(bits: &mut Bits, rbsp: &Rbsp, end: usize) -> bool
    requires same { bits.old.body ≡ rbsp.now }
    requires within { end ≤ 8 * length rbsp.now.bytes }
    requires byte { end % 8 ≡ 0 }
    requires after { 8 ≤ end }
    ensures { result ≡ is_closed bits.old.body.bytes bits.old.at end }
{
    let bit = bits.stream_bit();
    if bit == rbsp.stream_bit(end) {
        return true;
    }
    let last_byte = rbsp.stream_bit(end - 8);
    if bit <= last_byte || 8 <= bit - last_byte {
        return false;
    }
    let left = 8 - (bit - last_byte) as u32;
    match u(bits, left) {
        Some(value) => value == 1 << (left - 1),
        None => false,
    }
}

/// The content of a message of this payloadType, by the set that is known.
fn content_by(bits: &mut Bits, known: &KnownSet, payload_type: usize) -> Option<()>
    ensures read { read_so result bits.new.at ≡ content_by known.now payload_type bits.old.body.bytes bits.old.at }
    ensures body { bits.new.body ≡ bits.old.body }
{
    match known {
        KnownSet::One(set) if payload_type == BUFFERING_PERIOD => {
            buffering_period(bits, set)?;
            Some(())
        }
        KnownSet::One(set) if payload_type == PIC_TIMING => {
            pic_timing(bits, set)?;
            Some(())
        }
        _ => content(bits, payload_type),
    }
}

/// Whether the content of a message of this payloadType fills bytes `from` to `to` of the RBSP.
fn fills_up(known: &KnownSet, payload_type: usize, rbsp: &Rbsp, from: usize, to: usize) -> bool
    requires inside { to ≤ length rbsp.now.bytes }
    requires forward { from ≤ to }
    requires after { 0 < to }
    ensures { result ≡ fills_up rbsp.now.bytes (8 * to) (content_by known.now payload_type rbsp.now.bytes (8 * from)) }
{
    let mut bits = Bits::new(rbsp);
    let Ok(_before) = bits.bytes(from) else {
        return false;
    };
    match content_by(&mut bits, known, payload_type) {
        Some(()) => is_closed(&mut bits, rbsp, 8 * to),
        None => false,
    }
}

/// Whether these are bytes FF.
fn is_filler_payload(payload: &[u8]) -> bool
    ensures { result ≡ is_filler_payload payload.now }
{
    ff_bytes(payload) == payload.len()
}

/// Whether these are the code of a country, after FF a byte more, and a byte at least.
fn is_registered(payload: &[u8]) -> bool
    ensures { result ≡ is_registered payload.now }
{
    match payload {
        [] => false,
        [country, rest @ ..] => {
            let least = if *country == 0xff { 2 } else { 1 };
            least <= rest.len()
        }
    }
}

/// Whether messages of this payloadType have a content that is read by a syntax.
fn has_syntax(payload_type: usize) -> bool
    ensures { result ≡ has_syntax payload_type }
{
    matches!(
        payload_type,
        2 | 6 | 9..=17 | 20 | 21 | 45 | 47 | 137 | 144 | 147
    )
}

/// Whether messages of this payloadType are read, by the set that is known.
fn is_read(known: &KnownSet, payload_type: usize) -> bool
    ensures { result ≡ is_read known.now payload_type }
{
    match known {
        KnownSet::One(_) => {
            payload_type == BUFFERING_PERIOD
                || payload_type == PIC_TIMING
                || has_syntax(payload_type)
        }
        _ => has_syntax(payload_type),
    }
}

/// Whether bytes `from` to `to` of the RBSP are a payload of this payloadType as its syntax says. One of a type that is not judged is.
fn holds(known: &KnownSet, payload_type: usize, rbsp: &Rbsp, from: usize, to: usize) -> bool
    requires inside { to ≤ length rbsp.now.bytes }
    requires forward { from ≤ to }
    requires after { 0 < to }
    ensures { result ≡ holds known.now payload_type rbsp.now.bytes from to }
{
    let payload = &rbsp.bytes()[from..to];
    if payload_type == FILLER_PAYLOAD {
        return is_filler_payload(payload);
    }
    if payload_type == REGISTERED {
        return is_registered(payload);
    }
    if payload_type == UNREGISTERED {
        return UUID <= payload.len();
    }
    !is_read(known, payload_type) || fills_up(known, payload_type, rbsp, from, to)
}

/// The payloadType or payloadSize that stands first.
fn payload_value(bytes: &[u8]) -> usize
    requires short { length bytes.now ≤ 2 ^ 28 }
    requires whole { ff_bytes bytes.now < length bytes.now }
    ensures { result ≡ payload_value bytes.now }
{
    let ffs = ff_bytes(bytes);
    255 * ffs + bytes[ffs] as usize
}

/// The bytes before the payload of the first message.
fn payload_start(bytes: &[u8]) -> usize
    requires short { length bytes.now ≤ 2 ^ 28 }
    requires whole { ff_bytes bytes.now < length bytes.now }
    ensures { result ≡ payload_start bytes.now }
{
    let kind = ff_bytes(bytes);
    kind + 1 + (ff_bytes(after(bytes, kind + 1)) + 1)
}

/// The message that begins with byte `at` of the RBSP, by the set that is known; None where no whole one does.
pub fn message_at(known: &KnownSet, rbsp: &Rbsp, at: usize) -> Option<Message>
    requires { at ≤ length rbsp.now.bytes }
    ensures value { result ≡ message_at known.now rbsp.now.bytes at }
    ensures within { IfSome result (λ m. m.end ≤ length rbsp.now.bytes) }
    ensures inside { IfSome result (λ m. m.from ≤ length rbsp.now.bytes) }
{
    let bytes = after(rbsp.bytes(), at);
    let end = at + message_length(bytes)?;
    let from = at + payload_start(bytes);
    let payload_type = payload_value(bytes);
    Some(Message {
        payload_type,
        from,
        end,
        holds: holds(known, payload_type, rbsp, from, end),
    })
}
