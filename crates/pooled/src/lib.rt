// Operation structs over a lent byte pool. Document 01 has them in "Shapes that must change": a struct names its key
// and its value as parts of one pool, and a part outside it, or another kind, is no operation. Nothing above this
// crate knows how a struct names a part.
#![tactic(auto)]

ghost use Rattle.std.specs.Prelude.{◌≡◌, true};
ghost use Rattle.pooled.specs.Parts.{part_at, inside, is_kind, is_op, kind_of};

use codec::OpKind;
use definition::{BatchOp, DELETE_KIND, PUT_KIND};

// The kinds of an operation list, as a struct has them: numbers, since the struct is C's.
const PUT: u8 = PUT_KIND as u8;

const DELETE: u8 = DELETE_KIND as u8;

// Whether a part ends within the pool; no sum is made that could wrap.
#[tactic(auto, unfolding(crate::specs::Parts::inside))]
fn is_inside(pool: &[u8], at: usize, len: usize) -> bool
    ensures { result ≡ inside pool.now at len }
{
    at <= pool.len() && len <= pool.len() - at
}

// Whether it is a put, or a delete with no value.
#[tactic(auto, unfolding(crate::specs::Parts::is_kind, definition::specs::Tools::pick))]
fn is_kind(op: BatchOp) -> bool
    ensures { result ≡ is_kind op }
{
    match op.kind {
        PUT => true,
        DELETE => op.value_len == 0,
        _ => false,
    }
}

#[tactic(auto, unfolding(crate::specs::Parts::is_op, definition::specs::Tools::pick))]
pub fn is_op(pool: &[u8], op: BatchOp) -> bool
    ensures { result ≡ is_op pool.now op }
{
    is_inside(pool, op.key_at, op.key_len)
        && is_inside(pool, op.value_at, op.value_len)
        && is_kind(op)
}

// ---- of a struct that is an operation: its kind, and its parts

#[tactic(auto, unfolding(crate::specs::Parts::kind_of, definition::specs::Tools::pick))]
pub fn kind_of(op: BatchOp) -> OpKind
    ensures { result ≡ kind_of op }
{
    match op.kind {
        PUT => OpKind::Put,
        _ => OpKind::Delete,
    }
}

#[tactic(auto, using(crate::proofs::Naming::key_fits), unfolding(crate::specs::Parts::part_at))]
pub fn key_of(pool: &[u8], op: BatchOp) -> &[u8]
    requires { is_op pool.now op ≡ true }
    ensures { result.now ≡ part_at pool.now op.key_at op.key_len }
{
    slices::part(pool, op.key_at, op.key_len)
}

#[tactic(auto, using(crate::proofs::Naming::value_fits), unfolding(crate::specs::Parts::part_at))]
pub fn value_of(pool: &[u8], op: BatchOp) -> &[u8]
    requires { is_op pool.now op ≡ true }
    ensures { result.now ≡ part_at pool.now op.value_at op.value_len }
{
    slices::part(pool, op.value_at, op.value_len)
}
