// Available space, and the free space that it leaves. This is the Rust's own type, over f32, which the promises of the six routines name; `Constraint` of the crate kinds, over u32, is
// the board's.
ghost use Rattle.std.specs.Prelude.{◌≡◌};
ghost use Rattle.float_track.specs.Space.{free_space, stretch_space};

#[derive(Clone, Copy)]
pub enum AvailableSpace {
    Definite(f32),
    MinContent,
    MaxContent,
}

impl AvailableSpace {
    // What is free once so much is used.
    pub fn compute_free_space(self, used: f32) -> f32
        ensures { result ≡ free_space self used }
    {
        match self {
            AvailableSpace::MaxContent => f32::INFINITY,
            AvailableSpace::MinContent => 0.0,
            AvailableSpace::Definite(space) => space - used,
        }
    }

    // What is free for stretching: the minimum size stands in where the space is not definite, and 0.0 where there is none.
    pub fn stretch_space(self, minimum: Option<f32>, used: f32) -> f32
        ensures { result ≡ stretch_space self minimum used }
    {
        match self {
            AvailableSpace::Definite(space) => space - used,
            AvailableSpace::MinContent | AvailableSpace::MaxContent => {
                minimum.map_or(0.0, |size| size - used)
            }
        }
    }
}
