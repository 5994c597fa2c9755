// A call that was refused, told to C: its number is the answer, and its place is written. Each proved call has refusals of its own; what
// they share is the paper's number and place.
ghost use Rattle.std.specs.Prelude.{◌≡◌, ℕ};
ghost use Rattle.records.specs.Answer as records;
ghost use Rattle.fill.specs.Answer as fill;
ghost use Rattle.board.specs.Answer as board;
ghost use Rattle.float_domain.specs.Answer as floats;

pub(crate) trait Refuses: Copy {
    ghost number_of: { Self → ℕ };

    ghost place_of: { Self → ℕ };

    fn code(self) -> u32
        ensures { result ≡ number_of self };

    fn at(self) -> u64
        ensures { result ≡ place_of self };
}

impl Refuses for records::Refusal {
    ghost number_of = { records.number_of };

    ghost place_of = { records.place_of };

    fn code(self) -> u32 {
        self.number()
    }

    fn at(self) -> u64 {
        self.place() as u64
    }
}

impl Refuses for fill::Refusal {
    ghost number_of = { fill.number_of };

    ghost place_of = { fill.place_of };

    fn code(self) -> u32 {
        self.number()
    }

    fn at(self) -> u64 {
        u64::from(self.place())
    }
}

impl Refuses for board::Refusal {
    ghost number_of = { board.number_of };

    ghost place_of = { board.place_of };

    fn code(self) -> u32 {
        self.number()
    }

    fn at(self) -> u64 {
        self.place() as u64
    }
}

impl Refuses for floats::Refusal {
    ghost number_of = { floats.number_of };

    ghost place_of = { floats.place_of };

    fn code(self) -> u32 {
        self.number()
    }

    fn at(self) -> u64 {
        self.place() as u64
    }
}

pub(crate) fn refused<R: Refuses>(refusal: R, place: &mut u64) -> u32
    ensures code { result ≡ R.number_of refusal }
    ensures at { place.new ≡ R.place_of refusal }
{
    *place = refusal.at();
    refusal.code()
}
