// Document 01, "Numbers a caller can hear": the number of every refusal, and the values behind it.
#![tactic(auto)]

ghost use Rattle.std.specs.Prelude.{◌≡◌};
ghost use Rattle.definition.specs.Numbers;
ghost use Rattle.numbers.specs.Forms.{serialization_three, journal_three, values_three};

use definition::{Fault, JournalPart, SerializationKind};

// The values of a refusal, as many as it has, then zeros.
#[derive(Clone, Copy, Debug, PartialEq, Eq)]
pub struct Three(pub usize, pub usize, pub usize);

// Document 01's numbers, which C and the console hear. No From: Fault and u8 are not this crate's.
#[tactic(auto, unfolding(definition::specs::Numbers::number))]
pub fn number(fault: Fault) -> u8
    ensures { result ≡ Numbers.number fault }
{
    match fault {
        Fault::BadRegion(_) => 1,
        Fault::CapacityExceeded(_, _, _) => 2,
        Fault::ReservedKey => 3,
        Fault::WouldBlock => 4,
        Fault::Driver(_) => 5,
        Fault::FullStorage => 6,
        Fault::Corrupted => 7,
        Fault::EngineBug => 8,
        Fault::BufferTooBig => 9,
        Fault::BufferTooSmall(_) => 10,
        Fault::Serialization(_) => 11,
        Fault::ItemTooBig => 12,
        Fault::JournalCorrupted(_) => 13,
        Fault::ScanStalled => 14,
        Fault::BatchCommitted => 15,
        Fault::CommitUncertain => 16,
        Fault::BadList => 17,
        Fault::OutputTooSmall(_) => 18,
    }
}

// Of a kind that says more than its place among its fellows: the place, then what it says.
impl From<SerializationKind> for Three {
    ghost from_gives = { λ k r. r ≡ serialization_three k };

    #[tactic(auto, unfolding(crate::specs::Forms::serialization_three, definition::specs::Numbers::serialization_values))]
    fn from(kind: SerializationKind) -> Three {
        match kind {
            SerializationKind::BufferTooSmall => Three(0, 0, 0),
            SerializationKind::InvalidData => Three(1, 0, 0),
            SerializationKind::InvalidFormat => Three(2, 0, 0),
            SerializationKind::Custom(code) => Three(3, code as usize, 0),
        }
    }
}

impl From<JournalPart> for Three {
    ghost from_gives = { λ p r. r ≡ journal_three p };

    #[tactic(auto, unfolding(crate::specs::Forms::journal_three, definition::specs::Numbers::journal_values))]
    fn from(part: JournalPart) -> Three {
        match part {
            JournalPart::MarkerCount(count) => Three(0, count, 0),
            JournalPart::Entry(index) => Three(1, index, 0),
        }
    }
}

#[tactic(auto, using(crate::proofs::Places::places), unfolding(crate::specs::Forms::values_three, definition::specs::Numbers::values))]
pub fn values(fault: Fault) -> Three
    ensures { result ≡ values_three fault }
{
    match fault {
        Fault::BadRegion(kind) => Three(kind as usize, 0, 0),
        Fault::CapacityExceeded(what, got, limit) => Three(what as usize, got, limit),
        Fault::Driver(kind) => Three(kind as usize, 0, 0),
        Fault::BufferTooSmall(needed) | Fault::OutputTooSmall(needed) => Three(needed, 0, 0),
        Fault::Serialization(kind) => Three::from(kind),
        Fault::JournalCorrupted(part) => Three::from(part),
        Fault::ReservedKey
        | Fault::WouldBlock
        | Fault::FullStorage
        | Fault::Corrupted
        | Fault::EngineBug
        | Fault::BufferTooBig
        | Fault::ItemTooBig
        | Fault::ScanStalled
        | Fault::BatchCommitted
        | Fault::CommitUncertain
        | Fault::BadList => Three(0, 0, 0),
    }
}
