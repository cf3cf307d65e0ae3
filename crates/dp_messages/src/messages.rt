//! Messages: requests and replies as bytes.

ghost use Rattle.std.specs.Prelude.{◌≡◌, ◌≢◌, ◌≤◌, length, take, drop, Err, IfOk};
ghost use Rattle.std.specs.Int.{w32, w64, from_be_bytes};
ghost use Rattle.dp_messages.specs.Laws.{IsNoReply, IsNoRequest, IsRequest};
ghost use Rattle.dp_messages.specs.Spelling.{IsEnvelope, IsReply, reply_bytes, request_bytes};
ghost use Rattle.dp_messages.specs.declared.faults.BytesFault.TheVariants.{Malformed};
ghost use Rattle.dp_messages.specs.declared.replies.Reply.{Reply};
ghost use Rattle.dp_messages.specs.declared.requests.Envelope.{Envelope};

use crate::faults::BytesFault;
use crate::reading::{whole_envelope, whole_reply};
use crate::replies::Reply;
use crate::requests::Envelope;
use crate::writing::{put_envelope, put_reply};
use mail_queue::Letter;
use sql_base::NoMemory;
use std::alloc::Global;
use std::marker::Model;

/// The spelling of an envelope.
#[derive(Debug, Drop)]
pub struct Message {
    bytes: Vec<u8>,
}

impl Model for Message {
    ghost use Rattle.std.specs.Prelude.{List, ℕ};
    ghost use Rattle.dp_messages.specs.Laws.{IsRequest};

    ghost Value = { List ℕ };

    ghost view = { λ it. it.bytes.items };

    ghost invariant = { λ it. IsRequest it.bytes.items };
}

impl Message {
    pub fn bytes(&self) -> &[u8]
        ensures bytes { result.now ≡ self.now }
        ensures spelled { IsRequest self.now }
    {
        self.bytes.as_slice()
    }
}

/// In a mail its bytes are its spelling.
impl Letter for Message {
    ghost spelling = { λ message. message };

    fn bytes(&self) -> &[u8] {
        self.bytes.as_slice()
    }
}

/// The message of the bytes, which are those of an envelope.
pub fn accept(alloc: Global, bytes: Vec<u8>) -> Result<Message, BytesFault>
    ensures accepted { IfOk result (λ message. message ≡ bytes.items) }
    ensures spelled { IfOk result (λ message. IsRequest message) }
    // Refused are the spellings of no envelope, and no others.
    ensures malformed { result ≡ Err Malformed → IsNoRequest bytes.items }
{
    match whole_envelope(alloc, bytes.as_slice()) {
        Ok(_) => Ok(Message { bytes }),
        Err(fault) => Err(fault),
    }
}

/// The one spelling of an envelope.
pub fn encode_request(alloc: Global, envelope: &Envelope) -> Result<Message, NoMemory>
    requires { IsEnvelope envelope.now }
    ensures { IfOk result (λ message. message ≡ request_bytes envelope.now) }
{
    let mut bytes = Vec::new(alloc);
    put_envelope(&mut bytes, envelope)?;
    Ok(Message { bytes })
}

/// The one envelope that the message spells.
pub fn decode_request(alloc: Global, message: &Message) -> Result<Envelope, NoMemory>
    ensures found { IfOk result (λ envelope. IsEnvelope envelope × (message.now ≡ request_bytes envelope)) }
    ensures only { IfOk result (λ envelope. (e : Envelope) → IsEnvelope e → message.now ≡ request_bytes e → envelope ≡ e) }
{
    match whole_envelope(alloc, message.bytes()) {
        Ok(envelope) => Ok(envelope),
        Err(BytesFault::NoMemory) => Err(NoMemory),
        Err(BytesFault::Malformed) => unreachable!(),
    }
}

/// The message's opener and sync.
pub fn address(message: &Message) -> (u32, u64)
    ensures { (e : Envelope) → IsEnvelope e → message.now ≡ request_bytes e → (result.0 ≡ e.opener) × (result.1 ≡ e.sync) }
{
    first_numbers(message.bytes())
}

fn first_numbers(bytes: &[u8]) -> (u32, u64)
    requires { 12 ≤ length bytes.now }
    ensures first { result.0 ≡ from_be_bytes w32 (take 4 bytes.now) }
    ensures second { result.1 ≡ from_be_bytes w64 (take 8 (drop 4 bytes.now)) }
{
    let (four, rest) = bytes.split_at(4);
    let (eight, _) = rest.split_at(8);
    let first = u32::from_be_bytes(<[u8; 4]>::try_from(four).unwrap());
    let second = u64::from_be_bytes(<[u8; 8]>::try_from(eight).unwrap());
    (first, second)
}

/// The one spelling of a reply.
pub fn encode_reply(alloc: Global, reply: &Reply) -> Result<Vec<u8>, NoMemory>
    requires { IsReply reply.now }
    ensures { IfOk result (λ bytes. bytes.items ≡ reply_bytes reply.now) }
{
    let mut bytes = Vec::new(alloc);
    put_reply(&mut bytes, reply)?;
    Ok(bytes)
}

/// The one reply that the bytes spell.
pub fn decode_reply(alloc: Global, bytes: &[u8]) -> Result<Reply, BytesFault>
    ensures found { IfOk result (λ reply. IsReply reply × (bytes.now ≡ reply_bytes reply)) }
    ensures only { IfOk result (λ reply. (r : Reply) → IsReply r → bytes.now ≡ reply_bytes r → reply ≡ r) }
    // Refused are the spellings of no reply, and no others.
    ensures malformed { result ≡ Err Malformed → IsNoReply bytes.now }
{
    whole_reply(alloc, bytes)
}
