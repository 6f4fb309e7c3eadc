// Document 01, "The fault script": the fate of the next item call, and where a call stands after it.
#![tactic(auto)]

ghost use Rattle.std.specs.Prelude.{◌≡◌};
ghost use Rattle.definition.specs.Script;
ghost use Rattle.definition.specs.Script.{fault_of, byte_fate};

use definition::{DriverKind, Fault, SerializationKind, Step, Verdict};

// The fault that the low seven bits of a script byte name, where they are not 0: document 01's codes, so numbers.
#[tactic(auto, unfolding(definition::specs::Script::fault_of, definition::specs::Tools::pick))]
fn fault_of(code: u8) -> Fault
    ensures { result ≡ fault_of code }
{
    match code {
        1 => Fault::Driver(DriverKind::NotAligned),
        2 => Fault::Driver(DriverKind::OutOfBounds),
        3 => Fault::Driver(DriverKind::Other),
        4 => Fault::FullStorage,
        5 => Fault::Corrupted,
        6 => Fault::EngineBug,
        7 => Fault::BufferTooBig,
        8 => Fault::BufferTooSmall(0),
        9 => Fault::Serialization(SerializationKind::BufferTooSmall),
        10 => Fault::Serialization(SerializationKind::InvalidData),
        11 => Fault::Serialization(SerializationKind::InvalidFormat),
        12 => Fault::Serialization(SerializationKind::Custom(0)),
        13 => Fault::ItemTooBig,
        14 => Fault::WouldBlock,
        127 => Fault::Driver(DriverKind::Other),
        _ => Fault::EngineBug,
    }
}

// The fate that a script byte brings: bit 7 says whether the effect comes first.
#[tactic(auto, using(crate::proofs::Laws::byte_tests))]
fn byte_fate(byte: u8) -> Verdict
    ensures { result ≡ byte_fate byte }
{
    let code = byte % 128;
    if code == 0 {
        return Verdict::Pass;
    }
    let effect = 128 <= byte;
    Verdict::Fail(fault_of(code), effect)
}

// The fate of the next item call: a standing cut first, then the script's byte, and a pass at its end.
#[tactic(auto, using(crate::proofs::Laws::fates))]
pub fn fate(script: &[u8], step: Step) -> Verdict
    ensures { result ≡ Script.fate script.now step }
{
    if step.cut {
        return Verdict::Fail(Fault::Driver(DriverKind::Other), false);
    }
    match script.get(step.at) {
        Some(&byte) => byte_fate(byte),
        None => Verdict::Pass,
    }
}

// Where a call stands after its next item call.
#[tactic(auto, using(crate::proofs::Laws::steps))]
pub fn stepped(script: &[u8], step: Step) -> Step
    ensures { result ≡ Script.stepped script.now step }
{
    let calls = step.calls.wrapping_add(1);
    if step.cut {
        return Step { calls, ..step };
    }
    match script.get(step.at) {
        Some(byte) => Step {
            at: step.at + 1,
            cut: byte % 128 == 127,
            calls,
            ..step
        },
        None => Step { calls, ..step },
    }
}
