// Document 01, "Codecs": keys and their order, and the journal entry written; the marker, the journal key and an
// entry read are passed on from below. Every function takes any input and equals its definition in
// `definition/specs/Codec`.
#![tactic(auto)]

ghost use Rattle.std.specs.Prelude.{◌≡◌, ◌+◌, ◌≤◌, ◌<◌, length};
ghost use Rattle.definition.specs.Codec;
ghost use Rattle.definition.specs.Codec.{Put, key_write, key_bytes, key_length, op_fault, laid_if};
ghost use Rattle.codec.specs.Forms.{padded, KeyLens, key_reads, EntryWrites, Encodes, Checks, op_as};

use definition::{
    CapacityKind, CodecAnswer, ENTRY_HEAD, Fault, MAX_KEY_LEN, MAX_VALUE_LEN, OP_DELETE, OP_PUT,
    SerializationKind,
};
pub use entries::{decode_entry, key_part, value_part};
pub use marks::{decode_marker, encode_marker, journal_key, marker_key, reserved};
use std::cmp::Ordering;

// What an operation of a batch is.
#[derive(Clone, Copy, Debug, PartialEq, Eq)]
pub enum OpKind {
    Put,
    Delete,
}

// A key by value: its bytes, then zeros. No Vec: fixed memory is a rule of the project.
#[derive(Clone, Copy, Debug, PartialEq, Eq)]
pub struct Key {
    pub bytes: [u8; MAX_KEY_LEN],
    pub len: usize,
}

// A key that was read, and how many bytes it took.
#[derive(Clone, Copy, Debug, PartialEq, Eq)]
pub struct KeyRead {
    pub key: Key,
    pub taken: usize,
}

// A key's bytes, filled up with zeros.
#[tactic(auto, using(crate::proofs::Laws::pad_is))]
fn pad(key: &[u8]) -> [u8; MAX_KEY_LEN]
    requires { length key.now ≤ 96 }
    ensures { result ≡ padded key.now }
{
    let mut bytes = [0u8; MAX_KEY_LEN];
    slices::copy_in(&mut bytes, 0, key);
    bytes
}

impl Key {
    pub const MAX_LEN: usize = MAX_KEY_LEN;

    // How many bytes the key at the front of a buffer takes, or why there is none.
    #[tactic(auto, using(crate::proofs::Laws::read_tests))]
    fn read_len(buffer: &[u8]) -> CodecAnswer
        ensures { KeyLens buffer.now result }
    {
        let taken = Key::get_len(buffer)?;
        if Key::MAX_LEN + 1 < taken || buffer.len() < taken {
            return Err(Fault::Serialization(SerializationKind::InvalidData));
        }
        Ok(taken)
    }

    // Reads the key at the front of a buffer.
    #[tactic(auto, using(crate::proofs::Laws::key_refused, definition::proofs::Choices::passed_on))]
    pub fn read(buffer: &[u8]) -> Result<KeyRead, Fault>
        ensures { result ≡ key_reads buffer.now }
    {
        let taken = Key::read_len(buffer)?;
        let key = Key {
            bytes: pad(&buffer[1..taken]),
            len: taken - 1,
        };
        Ok(KeyRead { key, taken })
    }

    // Writes a key to the front of a buffer; a refusal leaves the buffer as it was.
    #[tactic(auto, using(crate::proofs::Laws::write_tests), unfolding(definition::specs::Codec::laid_if))]
    pub fn write(key: &[u8], out: &mut [u8]) -> CodecAnswer
        ensures { (result ≡ key_write key.now (length out.old)) × (out.new
            ≡ laid_if result (key_bytes key.now) out.old) }
    {
        let n = key.len();
        if Key::MAX_LEN < n {
            return Err(Fault::CapacityExceeded(CapacityKind::Key, n, Key::MAX_LEN));
        }
        if out.len() < n + 1 {
            return Err(Fault::Serialization(SerializationKind::BufferTooSmall));
        }
        out[0] = n as u8;
        slices::copy_in(out, 1, key);
        Ok(n + 1)
    }

    // How many bytes a key takes, by its length byte alone.
    #[tactic(auto, using(crate::proofs::Laws::length_tests))]
    pub fn get_len(buffer: &[u8]) -> CodecAnswer
        ensures { result ≡ key_length buffer.now }
    {
        let len = buffer
            .first()
            .ok_or(Fault::Serialization(SerializationKind::BufferTooSmall))?;
        Ok(slices::wide(*len) + 1)
    }

    // Which of two keys comes first: unsigned bytes from the left, a proper prefix being smaller.
    #[tactic(auto, using(crate::proofs::Laws::order_cmp))]
    pub fn order(a: &[u8], b: &[u8]) -> Ordering
        ensures { result ≡ Codec.order a.now b.now }
    {
        a.cmp(b)
    }
}

// The batch's tests of an operation with this key and value, in their order; a delete has the empty value.
#[tactic(auto, using(crate::proofs::Laws::op_tests))]
pub fn check_op(key: &[u8], value: &[u8]) -> Result<(), Fault>
    ensures { Checks (op_fault (Put key.now value.now)) key.now
        value.now result }
{
    let len = key.len();
    if Key::MAX_LEN < len {
        return Err(Fault::CapacityExceeded(CapacityKind::Key, len, Key::MAX_LEN));
    }
    if reserved(key) {
        return Err(Fault::ReservedKey);
    }
    if MAX_VALUE_LEN < value.len() {
        return Err(Fault::CapacityExceeded(CapacityKind::Value, value.len(), MAX_VALUE_LEN));
    }
    Ok(())
}

// Tests and writes an entry of these parts; a refusal leaves the buffer as it was.
fn encode_entry(op: u8, key: &[u8], value: &[u8], out: &mut [u8]) -> CodecAnswer
    ensures { EntryWrites op key.now value.now out.old out.new result }
{
    check_op(key, value)?;
    let to = ENTRY_HEAD + key.len();
    let n = to + value.len();
    if out.len() < n {
        return Err(Fault::Serialization(SerializationKind::BufferTooSmall));
    }
    out[0] = op;
    out[1] = key.len() as u8;
    slices::copy_in(out, ENTRY_HEAD, key);
    slices::copy_in(out, to, value);
    Ok(n)
}

// Encodes an operation; a refusal leaves the buffer as it was. The value of a delete is not looked at.
pub fn encode_op(kind: OpKind, key: &[u8], value: &[u8], out: &mut [u8]) -> CodecAnswer
    ensures { Encodes (op_as kind key.now value.now) out.old out.new
        result }
{
    match kind {
        OpKind::Put => encode_entry(OP_PUT, key, value, out),
        OpKind::Delete => encode_entry(OP_DELETE, key, &value[0..0], out),
    }
}
