// How many cases there were, and which differ.
ghost use Rattle.std.specs.Prelude.{◌≡◌, true, false, ◌≤◌, ◌<◌, ◌+◌};

// The first case that differs: its number, from 1, and its name, which begins with the blank after its #.
#[derive(Clone, Copy)]
pub struct First<'a> {
    pub number: usize,
    pub name: &'a [u8],
}

// How many cases there were and how many differ, and the first that does.
#[derive(Clone, Copy)]
pub struct Tally<'a> {
    pub cases: usize,
    pub differ: usize,
    pub first: Option<First<'a>>,
    ghost some_of_all: { differ ≤ cases },
}

impl<'a> Tally<'a> {
    pub fn new() -> Tally<'a>
        ensures { (result.cases ≡ 0) × (result.differ ≡ 0) }
    {
        Tally {
            cases: 0,
            differ: 0,
            first: None,
        }
    }

    pub fn counted(self, agrees: bool, name: &'a [u8]) -> Tally<'a>
        requires { self.cases < 18446744073709551615 }
        ensures cases_value { result.cases ≡ self.entry.cases + 1 }
        ensures differ_value { (agrees ≡ true → result.differ ≡ self.entry.differ) × (agrees ≡ false → result.differ ≡ self.entry.differ + 1) }
    {
        let cases = self.cases + 1;
        let differ = self.differ;
        let first = self.first;
        if agrees {
            return Tally {
                cases,
                differ,
                first,
            };
        }
        let number = cases;
        Tally {
            cases,
            differ: differ + 1,
            first: first.or(Some(First { number, name })),
        }
    }
}
