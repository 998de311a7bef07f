// Why something is refused (01, "Refusal numbers"; 02).
#![tactic(auto)]

ghost use Rattle.std.specs.Prelude.{ℕ, ◌≡◌};
ghost use Rattle.refusal.specs.Number.{number, refused_number, refused_place, Nowhere};
ghost use Rattle.refusal.specs.declared.Refused.{Refused};

// The refusals in the order of their numbers, which are the discriminants. Each is named after what is wrong.
#[derive(Clone, Copy, PartialEq, Eq, Debug)]
pub enum Refusal {
    // The screen record.
    ScreenRecord = 1,
    Depth = 2,
    Rotation = 3,
    Panel = 4,
    ViewWidth = 5,
    MainImage = 6,
    WindowPlace = 7,
    WindowDwords = 8,
    WindowImage = 9,
    // The list, and its commands.
    ListLength = 10,
    ListDepth = 11,
    CommandForm = 12,
    EmptyRectangle = 13,
    Outside = 14,
    FewWords = 15,
    WordsLeft = 16,
    // What is lent: a buffer for what is made, and the display memory.
    Room = 17,
    MemoryLength = 18,
    // A stream, and its records.
    StreamLength = 19,
    Register = 20,
    Value = 21,
    Reach = 22,
    DataWord = 23,
    // Reading a point.
    Point = 24,
    Address = 25,
    // The requests of 02: line lengths, samples and strips, the short form, bytes that are shared, blocks of a stream.
    LineLength = 26,
    WearRange = 27,
    LongOnly = 28,
    Shared = 29,
    Block = 32,
}

impl Refusal {
    // Its number.
    #[tactic(auto, unfolding(crate::specs::Number::number))]
    pub fn number(self) -> u32
        ensures { result ≡ number self }
    {
        self as u32
    }
}

// A refusal, and the place that it names: a command, a record, or 0.
#[derive(Clone, Copy, PartialEq, Eq, Debug)]
pub struct Refused {
    pub refusal: Refusal,
    pub place: u64,
}

// A refusal that names no place.
impl From<Refusal> for Refused {
    ghost from_gives = { λ r x. Nowhere r x };

    fn from(refusal: Refusal) -> Refused {
        Refused { refusal, place: 0 }
    }
}

// Why an answer is refused, as numbers: a refusal by name, with a place or without, or any number and place themselves.
pub trait Numbered: Copy {
    ghost number_in: { Self → ℕ };

    ghost place_in: { Self → ℕ };

    // Its number.
    fn as_number(self) -> u32
        ensures { result ≡ number_in self };

    // The place that it names, or 0.
    fn as_place(self) -> u64
        ensures { result ≡ place_in self };
}

// What tells of a refusal and its place in its own way: itself, or its numbers.
pub trait Told: Copy {
    ghost told: { Refused → Self };

    fn tell(refused: Refused) -> Self
        ensures { result ≡ told refused };
}

impl Numbered for Refusal {
    ghost number_in = { number };

    ghost place_in = { λ r. 0 };

    fn as_number(self) -> u32 {
        self.number()
    }

    fn as_place(self) -> u64 {
        0
    }
}

impl Numbered for Refused {
    ghost number_in = { refused_number };

    ghost place_in = { refused_place };

    fn as_number(self) -> u32 {
        self.refusal.number()
    }

    fn as_place(self) -> u64 {
        self.place
    }
}

impl Numbered for u32 {
    ghost number_in = { λ n. n };

    ghost place_in = { λ n. 0 };

    fn as_number(self) -> u32 {
        self
    }

    fn as_place(self) -> u64 {
        0
    }
}

// A number, and a place.
impl Numbered for (u32, u64) {
    ghost number_in = { λ r. r.0 };

    ghost place_in = { λ r. r.1 };

    fn as_number(self) -> u32 {
        self.0
    }

    fn as_place(self) -> u64 {
        self.1
    }
}

impl Told for Refused {
    ghost told = { λ r. r };

    fn tell(refused: Refused) -> Refused {
        refused
    }
}

impl Told for (u32, u64) {
    ghost told = { λ r. (refused_number r, refused_place r) };

    fn tell(refused: Refused) -> (u32, u64) {
        (refused.refusal.number(), refused.place)
    }
}
