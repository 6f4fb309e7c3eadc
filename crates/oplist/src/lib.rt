// A batch's operation list, read where it is lent. Document 01 defines it in its last lines of "Calls": records as
// the region's, kind 1 put, kind 2 delete with no value, ending exactly. Nothing above this crate knows a byte of a
// list.
#![tactic(auto)]

ghost use Rattle.std.specs.Prelude.{◌≡◌, ◌-◌, ℕ, List, Option, length, drop};
ghost use Rattle.std.specs.Iterator.{at_most};
ghost use Rattle.definition.specs.Codec.{Op};
ghost use Rattle.definition.specs.OperationList.{ops_of};
ghost use Rattle.oplist.specs.Places.{Visit, Found, shape_of, Steps};

use codec::OpKind;
use definition::{DELETE_KIND, HEAD_SIZE, KEY_LEN_AT, PUT_KIND, VALUE_LEN_AT};
use region::Place;

// An operation as it stands in a source: its kind, its key, its value, which a delete has none of, and the place
// behind it.
#[derive(Clone, Copy)]
pub struct ListOp<'a> {
    pub kind: OpKind,
    pub key: &'a [u8],
    pub value: &'a [u8],
    pub next: usize,
}

// The operation at a place. It is told by its bytes: they are compared with those that its kind and lengths give.
#[tactic(auto, using(crate::proofs::Lists::finds_none), unfolding(definition::specs::Region::size))]
pub fn op_at(list: &[u8], at: usize) -> Option<ListOp<'_>>
    ensures { Visit list.now at result }
{
    if list.len() <= at {
        return None;
    }
    let left = list.len() - at;
    if left < HEAD_SIZE {
        return None;
    }
    let klen = slices::wide(list[at + KEY_LEN_AT]);
    let vlen = slices::le16_at(list, at + VALUE_LEN_AT);
    let size = region::size(klen, vlen);
    if left < size {
        return None;
    }
    let next = at + size;
    let place = Place { at, klen, vlen };
    let key = place.key(list);
    if region::agrees(list, at, PUT_KIND, klen, vlen) {
        let value = place.value(list);
        return Some(ListOp {
            kind: OpKind::Put,
            key,
            value,
            next,
        });
    }
    // A delete that agrees has no value, so that its size is its key's.
    if region::agrees(list, at, DELETE_KIND, klen, 0) {
        let value = Place { vlen: 0, ..place }.value(list);
        return Some(ListOp {
            kind: OpKind::Delete,
            key,
            value,
            next,
        });
    }
    None
}

// ---- a walk

// Where a batch's operations are lent: read by place, the first at 0, up to the end.
pub trait OpSource {
    ghost left: { Self → ℕ → Option (List Op) };

    ghost size: { Self → ℕ };

    fn op_at(&self, at: usize) -> Option<ListOp<'_>>
        ensures { Found (left self.now) (size self.now) at result };

    fn end(&self) -> usize
        ensures { result ≡ size self.now };
}

// A lent operation list.
#[derive(Clone, Copy)]
pub struct OpList<'a>(pub &'a [u8]);

impl<'a> OpSource for OpList<'a> {
    ghost left = { λ l at. ops_of (drop at l.0.now) };

    ghost size = { λ l. length l.0.now };

    #[tactic(auto, using(crate::proofs::Walks::found_is))]
    fn op_at(&self, at: usize) -> Option<ListOp<'_>> {
        op_at(self.0, at)
    }

    fn end(&self) -> usize {
        self.0.len()
    }
}

// The operations of a source in order, up to the first place where none stands.
#[derive(Drop)]
pub struct OpWalk<'a, S> {
    source: &'a S,
    at: usize,
}

// The walk over a source, from its front.
pub fn ops<S: OpSource>(source: &S) -> OpWalk<'_, S>
    ensures { (result.source.now ≡ source.now) × (result.at ≡ 0) }
{
    OpWalk { source, at: 0 }
}

impl<'a, S: OpSource> Iterator for OpWalk<'a, S> {
    type Item = ListOp<'a>;

    ghost remaining = { λ i. at_most (S.size i.source.now - i.at) };

    ghost next_gives = { λ i r j. Steps (S.left i.source.now) (S.size i.source.now) i r j };

    fn next(&mut self) -> Option<ListOp<'a>> {
        let op = self.source.op_at(self.at)?;
        self.at = op.next;
        Some(op)
    }
}

// How many operations a source has: it must end where an operation ends, and is no list of them where it does not.
pub fn shape_of<S: OpSource>(source: &S) -> Option<usize>
    ensures { result ≡ shape_of (S.left source.now 0) }
{
    let size = source.end();
    let mut end = 0;
    let mut count = 0;
    for op in ops(source) {
        end = op.next;
        count += 1;
    }
    if end == size { Some(count) } else { None }
}
