// The track record, and the two flushes of its planned increases.
ghost use Rattle.std.specs.Prelude.{◌≡◌};
ghost use Rattle.float_track.specs.Track.{track_of, row_of, flush_base, flush_limit};

#[derive(Clone, Copy)]
pub struct Track {
    pub base_size: f32,
    pub growth_limit: f32,
    pub base_size_planned_increase: f32,
    pub growth_limit_planned_increase: f32,
    pub item_incurred_increase: f32,
    pub infinitely_growable: bool,
}

impl Track {
    // The most tracks of a call.
    pub const MOST: usize = 256;
    // Space at or below this is not worth handing out, and a track may pass its limit by as much.
    pub const THRESHOLD: f32 = 0.01;

    // The track of a row, with its mark. `new` and `row`, and no `From`: `docs/PROMISES.md` names both.
    pub fn new(row: [f32; 5], mark: bool) -> Track
        ensures { result ≡ track_of row mark }
    {
        Track {
            base_size: row[0],
            growth_limit: row[1],
            base_size_planned_increase: row[2],
            growth_limit_planned_increase: row[3],
            item_incurred_increase: row[4],
            infinitely_growable: mark,
        }
    }

    pub fn row(self) -> [f32; 5]
        ensures { result ≡ row_of self }
    {
        [
            self.base_size,
            self.growth_limit,
            self.base_size_planned_increase,
            self.growth_limit_planned_increase,
            self.item_incurred_increase,
        ]
    }

    // The base size takes its planned increase.
    pub fn flush_planned_base_size_increases(mut self) -> Track
        ensures { result ≡ flush_base self }
    {
        self.base_size += self.base_size_planned_increase;
        self.base_size_planned_increase = 0.0;
        self
    }

    // The growth limit takes its planned increase. The mark is set as told where there is one, and cleared where not.
    pub fn flush_planned_growth_limit_increases(mut self, mark: bool) -> Track
        ensures { result ≡ flush_limit self mark }
    {
        if self.growth_limit_planned_increase > 0.0 {
            // An infinite limit starts anew from the base size.
            if self.growth_limit == f32::INFINITY {
                self.growth_limit = self.base_size + self.growth_limit_planned_increase;
            } else {
                self.growth_limit += self.growth_limit_planned_increase;
            }
            self.infinitely_growable = mark;
        } else {
            self.infinitely_growable = false;
        }
        self.growth_limit_planned_increase = 0.0;
        self
    }
}
