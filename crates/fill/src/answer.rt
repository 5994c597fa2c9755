// What a fill answers, and the paper's number and place of each refusal.
ghost use Rattle.std.specs.Prelude.{◌≡◌};
ghost use Rattle.fill.specs.Answer.{number_of, place_of};

#[derive(Clone, Copy)]
pub enum Refusal {
    // The lists, gains too, differ in length or exceed the most tracks.
    Lists,
    // The dots are over the space limit.
    Dots,
    // This track's room is over the space limit. A track's index is below 256.
    Room { track: u8 },
}

// What stays over of the dots, and the rounds that it took.
#[derive(Clone, Copy)]
pub struct Filled {
    pub leftover: u32,
    pub rounds: u32,
}

impl Refusal {
    pub fn number(self) -> u32
        ensures { result ≡ number_of self }
    {
        match self {
            Refusal::Lists => 12,
            Refusal::Dots | Refusal::Room { .. } => 7,
        }
    }

    pub fn place(self) -> u32
        ensures { result ≡ place_of self }
    {
        match self {
            Refusal::Lists | Refusal::Dots => 0,
            Refusal::Room { track } => 1 + track as u32,
        }
    }
}
