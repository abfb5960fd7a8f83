// The lines by which a call is refused (docs/RULES.md), and their numbers.
ghost use Rattle.std.specs.Prelude.{◌≡◌};
ghost use Rattle.refusals.specs.Lines.{number, first_holding};

// The lines, by the numbers of documents 01 and 02.
#[derive(Clone, Copy, Debug, PartialEq, Eq)]
pub enum Line {
    // 1. No instance has this number.
    UnknownInstance = 1,
    // 2. The state is not sound.
    UnsoundState = 2,
    // 3. The state is closed and takes nothing more, or absorbing and gives out no blocks yet.
    WrongPhase = 3,
    // 4. The instance has no such step width.
    UnknownWidth = 4,
    // 5. A slice whose length is fixed has another length.
    WrongLength = 5,
    // 6. There are fewer bits than the count says.
    CountOverBytes = 6,
    // 7. The message would have more than 16,777,215 bits.
    TotalOverLimit = 7,
    // 8. The padded message does not end with a whole block.
    PaddedLength = 8,
    // 9. The journal is not 0 to 1,600 whole records.
    WrongJournalLength = 9,
    // 10. A field of the body has a value that the layout does not allow.
    BrokenLayout = 10,
    // 11. The body does not continue the records before it.
    NotFollowing = 11,
    // 12. The seal is not the one that the record must have.
    DifferentSeal = 12,
    // 13. The journal has no record with this index.
    NoSuchRecord = 13,
    // 14. The number of blocks asked for is not 1 to 1,024.
    BlocksOutOfRange = 14,
    // 15. The state would have given out more than 1,048,576 extra blocks.
    ExtraOverLimit = 15,
    // 16. Every byte of the key is zero.
    BlankKey = 16,
    // 17. The buffer is not 0 to 1,000 whole marks, or has fewer marks than the count says.
    WrongMarkBuffer = 17,
    // 18. No mark in use has the name.
    NoSuchMark = 18,
    // 19. Every mark of the buffer is in use.
    NoFreeMark = 19,
    // 20. L's start value is over 1,023, or the steps are more than P's or not whole groups of the step width.
    StepsOutOfRange = 20,
}

impl Line {
    // The line's number.
    pub fn number(self) -> u32
        ensures { result ≡ number self }
    {
        self as u32
    }
}

// The line's number.
impl From<Line> for u32 {
    ghost from_gives = { λ line result. result ≡ number line };

    fn from(line: Line) -> u32 {
        line.number()
    }
}

// Refuses by the first of some lines that holds, each with its test, in checking order. A line is a `Line`, a number of the caller's own,
// or what else can be copied.
pub fn first<L: Copy>(lines: &[(bool, L)]) -> Result<(), L>
    ensures { result ≡ first_holding lines.now }
{
    for &(holds, line) in lines {
        if holds {
            return Err(line);
        }
    }
    Ok(())
}
