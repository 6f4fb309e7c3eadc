// A journal entry read: document 01, "Codecs". Every function takes any input and equals its definition in
// `definition/specs/Codec`; `codec` passes them on.
#![tactic(auto)]

ghost use Rattle.std.specs.Prelude.{◌≡◌};
ghost use Rattle.definition.specs.Codec.{entry_of, key_part, value_part};
ghost use Rattle.entries.specs.Forms.{EntryReads};

use definition::{ENTRY_HEAD, Entry, MAX_KEY_LEN, MAX_VALUE_LEN, OP_DELETE, OP_PUT};

// What a journal entry's bytes say, tested in document 01's order.
#[tactic(auto, using(crate::proofs::Entries::entry_tests))]
pub fn decode_entry(entry: &[u8]) -> Entry
    ensures { EntryReads entry.now result }
{
    if entry.len() < ENTRY_HEAD {
        return Entry::Corrupt;
    }
    let n = slices::wide(entry[1]);
    let to = ENTRY_HEAD + n;
    if entry.len() < to {
        return Entry::Corrupt;
    }
    if MAX_KEY_LEN < n {
        return Entry::Corrupt;
    }
    if marks::reserved(&entry[ENTRY_HEAD..to]) {
        return Entry::Corrupt;
    }
    match entry[0] {
        OP_PUT if MAX_VALUE_LEN < entry.len() - to => Entry::Corrupt,
        OP_PUT => Entry::Put(n),
        OP_DELETE => Entry::Delete(n),
        _ => Entry::Corrupt,
    }
}

// The key part of a journal entry; an empty part where the entry is corrupt.
#[tactic(auto, using(crate::proofs::Entries::key_read, crate::proofs::Entries::no_key))]
pub fn key_part(entry: &[u8]) -> &[u8]
    ensures { result.now ≡ key_part (entry_of entry.now) entry.now }
{
    match decode_entry(entry) {
        Entry::Put(n) | Entry::Delete(n) => &entry[ENTRY_HEAD..ENTRY_HEAD + n],
        Entry::Corrupt => &[],
    }
}

// The value part of a journal entry; an empty part where there is none.
#[tactic(auto, using(crate::proofs::Entries::value_read, crate::proofs::Entries::no_value))]
pub fn value_part(entry: &[u8]) -> &[u8]
    ensures { result.now ≡ value_part (entry_of entry.now) entry.now }
{
    match decode_entry(entry) {
        Entry::Put(n) => &entry[ENTRY_HEAD + n..],
        Entry::Delete(_) | Entry::Corrupt => &[],
    }
}
