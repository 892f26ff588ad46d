//! The refusals of every call, and the number that each is answered with.
#![tactic(auto)]

ghost use Rattle.std.specs.Prelude.{◌≡◌};
ghost use Rattle.refusal.specs.Refusal.{number_of};
ghost use Rattle.refusal.specs.Returned.{returned_of};

/// Why an event or a call is refused. C programs and answers see its number, the variant's value; 0 is no refusal.
#[derive(Clone, Copy, Debug, PartialEq, Eq)]
pub enum Refusal {
    /// The port has no such selector.
    Selector = 1,
    /// No overlay colour or control register has this address.
    Address = 2,
    /// A colour write in direction read, or a colour read in direction write.
    Direction = 3,
    /// The operand has a bit that the event doesn't define.
    UndefinedBit = 4,
    /// The chip has no events of this kind.
    MissingKind = 5,
    /// The log is shorter than its header.
    ShortLog = 10,
    /// The log names no chip that is built.
    LogChip = 11,
    /// The log has more events than a log may have.
    EventCount = 12,
    /// The log is longer or shorter than its count says, or an operand isn't 8 bytes.
    Length = 13,
    /// No event has this kind.
    UnknownKind = 14,
    /// An operand byte that the event doesn't use isn't 0.
    UnusedByte = 15,
    /// The snapshot is shorter than its header.
    ShortSnapshot = 20,
    /// The snapshot or the state names no chip that is built.
    Chip = 21,
    /// The snapshot has more places than the chip.
    PlaceCount = 22,
    /// The snapshot is longer or shorter than its count says.
    SnapshotLength = 23,
    /// A place is outside the chip, or not above the one before.
    Place = 24,
    /// A value of a snapshot is 0, or one of a snapshot or a state is above its place's largest.
    Value = 25,
    /// The snapshot and the log are for two chips.
    OtherChip = 26,
    /// The answer buffer is too short.
    AnswerRoom = 30,
    /// The end buffer is too short.
    EndRoom = 31,
    /// Output currents are those of a TLC34058.
    NotTlc34058 = 40,
    /// A plan is for an HD153129.
    NotHd153129 = 41,
    /// The wanted bytes aren't as many as the colours, or one is above the largest.
    WantedBytes = 42,
    /// The buffer is too short for the longest plan.
    PlanRoom = 43,
}

impl Refusal {
    /// The refusal's number.
    // No `From`: as a method it says what the number is, and no call has to name the type.
    #[inline(always)]
    pub fn number(self) -> u8
        ensures { result ≡ number_of self }
    {
        self as u8
    }
}

/// What a call returns to a C program: a length, or 65,536 x the refusal's number.
pub fn returned(outcome: Result<usize, Refusal>) -> u64
    ensures { result ≡ returned_of outcome }
{
    match outcome {
        Ok(length) => length as u64,
        Err(refusal) => 65536 * u64::from(refusal.number()),
    }
}
