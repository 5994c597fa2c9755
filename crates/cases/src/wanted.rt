// What a case wants told: a refusal's number and place, or two numbers of an answer that is no refusal.
ghost use Rattle.std.specs.Prelude.{◌≡◌, true};
ghost use Rattle.texts.specs.Reading.{Onward};
ghost use Rattle.cases.specs.Wanted.{wanted_as};

use texts::{Stop, Text};

#[derive(Clone, Copy)]
pub struct Answer {
    pub first: u32,
    pub second: u32,
}

#[derive(Clone, Copy)]
pub struct Refused {
    pub number: u32,
    pub place: u32,
}

pub type Wanted = Result<Answer, Refused>;

impl Refused {
    // Whether a refusal has the wanted number and place.
    pub fn is(self, number: u32, place: usize) -> bool
        ensures { result ≡ true → (number ≡ self.number) × (place ≡ self.place) }
    {
        self.number == number && self.place as usize == place
    }
}

// What a case wants by its mark and two numbers. Apart from reading, which promises no value.
pub fn wanted_of(is_refusal: bool, first: u32, second: u32) -> Wanted
    ensures { result ≡ wanted_as is_refusal first second }
{
    let refused = Refused {
        number: first,
        place: second,
    };
    let answer = Answer { first, second };
    if is_refusal { Err(refused) } else { Ok(answer) }
}

// A mark, whether a refusal is wanted, and two numbers.
pub fn read_wanted(text: &mut Text) -> Result<Wanted, Stop>
    ensures { Onward text.old result text.new }
{
    let is_refusal = text.mark()?;
    let first = text.number()?;
    let second = text.number()?;
    Ok(wanted_of(is_refusal, first, second))
}
