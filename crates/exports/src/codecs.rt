// The codecs for tests in C or Rust, over plain numbers as the calls are: a key read and written, how many bytes it
// takes, which of two keys comes first, and a journal entry written.
ghost use Rattle.std.specs.Prelude.{◌≡◌, length};
ghost use Rattle.definition.specs.Codec.{key_read, key_write, key_bytes, key_length, order, encode, encode_into};
ghost use Rattle.codec.specs.Forms.{op_as};
ghost use Rattle.exports.specs.Codecs.{codec_out, order_number, kind_of, key_out, Writes};

use crate::Word;
use codec::{Key, KeyRead, OpKind};
use definition::{CodecAnswer, MAX_KEY_LEN};
use std::cmp::Ordering;

// What a codec says. answer 1: so many bytes, taken, written or asked for; 0: refused, with document 01's number and
// values.
#[repr(C)]
#[derive(Clone, Copy)]
pub struct CCodec {
    pub answer: u64,
    pub number: u64,
    pub v0: u64,
    pub v1: u64,
    pub v2: u64,
    pub length: u64,
}

// What reading gives: the key's bytes, then zeros, and how many there are; none where it is refused.
#[repr(C)]
#[derive(Clone, Copy)]
pub struct CKey {
    pub said: CCodec,
    pub bytes: [u8; MAX_KEY_LEN],
    pub len: u64,
}

impl From<CodecAnswer> for CCodec {
    ghost from_gives = { λ a r. r ≡ codec_out a };

    fn from(answer: CodecAnswer) -> CCodec {
        let word = match answer {
            Ok(n) => Word::says(1, 0, n as u64),
            Err(fault) => Word::refuses(fault, 0, 0),
        };
        CCodec {
            answer: word.answer,
            number: word.number,
            v0: word.values.0 as u64,
            v1: word.values.1 as u64,
            v2: word.values.2 as u64,
            length: word.length,
        }
    }
}

// 0 less, 1 equal, 2 greater.
#[tactic(auto, unfolding(crate::specs::Codecs::order_number))]
fn order_number(order: Ordering) -> u64
    ensures { result ≡ order_number order }
{
    match order {
        Ordering::Less => 0,
        Ordering::Equal => 1,
        Ordering::Greater => 2,
    }
}

// 2 deletes; any other number puts.
fn kind_of(number: u64) -> OpKind
    ensures { result ≡ kind_of number }
{
    if number == 2 {
        return OpKind::Delete;
    }
    OpKind::Put
}

#[unsafe(no_mangle)]
pub extern "C" fn takes_key_read(buffer: &[u8]) -> CKey
    ensures { result ≡ key_out (key_read buffer.now) buffer.now }
{
    match Key::read(buffer) {
        Ok(KeyRead { key, taken }) => {
            let bytes = key.bytes;
            CKey {
                said: CCodec::from(Ok(taken)),
                bytes,
                len: key.len as u64,
            }
        }
        Err(fault) => CKey {
            said: CCodec::from(Err(fault)),
            bytes: [0; MAX_KEY_LEN],
            len: 0,
        },
    }
}

#[unsafe(no_mangle)]
pub extern "C" fn takes_key_write(key: &[u8], out: &mut [u8]) -> CCodec
    ensures { Writes (key_write key.now (length out.old)) (key_bytes key.now)
        out.old result out.new }
{
    CCodec::from(Key::write(key, out))
}

#[unsafe(no_mangle)]
pub extern "C" fn takes_key_len(buffer: &[u8]) -> CCodec
    ensures { result ≡ codec_out (key_length buffer.now) }
{
    CCodec::from(Key::get_len(buffer))
}

#[unsafe(no_mangle)]
pub extern "C" fn takes_key_order(a: &[u8], b: &[u8]) -> u64
    ensures { result ≡ order_number (order a.now b.now) }
{
    order_number(Key::order(a, b))
}

#[unsafe(no_mangle)]
pub extern "C" fn takes_entry_write(kind: u64, key: &[u8], value: &[u8], out: &mut [u8]) -> CCodec
    ensures { Writes (encode_into (op_as (kind_of kind) key.now value.now) (length
        out.old)) (encode (op_as (kind_of kind) key.now value.now)) out.old
        result out.new }
{
    let kind = kind_of(kind);
    CCodec::from(codec::encode_op(kind, key, value, out))
}
