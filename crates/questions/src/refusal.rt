// A refusal: the question that is answered no, and a place.
ghost use Rattle.std.specs.Prelude.{◌≡◌};
ghost use Rattle.questions.specs.Number.{number_of};

// The questions of 01 and 02, each with its number.
#[derive(Clone, Copy, Debug, PartialEq, Eq)]
pub enum Question {
    InputLength = 1,
    OutputLength = 2,
    Level = 3,
    Limit = 4,
    Range = 5,
    Word = 6,
    FixedBytes = 7,
    Check = 8,
    Spent = 9,
    Reach = 10,
    Threshold = 11,
    Bytes = 12,
    EmptyStack = 13,
    OuterWord = 14,
    Lines = 15,
    Name = 16,
    Held = 17,
    SummedLimit = 18,
}

impl Question {
    pub fn number(self) -> u64
        ensures { result ≡ number_of self }
    {
        self as u64
    }
}

// The first question that is answered no, and a place, 0 unless 01 or 02 names one.
#[derive(Clone, Copy, Debug, PartialEq, Eq)]
pub struct Refusal {
    pub question: Question,
    pub place: u64,
}
