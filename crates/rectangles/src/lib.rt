// Rectangle records as flat numbers: lower x, upper x, lower y, upper y of each, as the search takes keepouts.
#![tactic(auto)]

ghost use Rattle.std.specs.Prelude.{◌≡◌, ◌*◌, [], take};
ghost use Rattle.rectangles.specs.Rectangles.{Gathers, Adds};

use geometry::Rectangle;

// Room for one more than an edit takes, so that of too many there still are too many.
pub const ROOM: usize = tree::MOST_KEEPOUTS + 1;

// The numbers of `count` rectangles; those after them are not read. (An array and a count, here and below, since there is no heap.)
#[derive(Clone, Copy)]
pub struct Flat {
    pub bounds: [i32; tree::KEEPOUT_BOUNDS * ROOM],
    pub count: usize,
}

impl Flat {
    #[tactic(auto, using(crate::proofs::Gathering::none_yet))]
    fn none() -> Flat
        ensures { Gathers [] result }
    {
        Flat {
            bounds: [0; tree::KEEPOUT_BOUNDS * ROOM],
            count: 0,
        }
    }

    // One more, where there is room.
    #[tactic(auto, using(crate::proofs::Gathering::is_full))]
    fn add(&mut self, k: Rectangle)
        ensures { Adds self.old k self.new }
    {
        let n = self.count;
        if n >= ROOM {
            return;
        }
        let i = tree::KEEPOUT_BOUNDS * n;
        self.bounds[i] = k.xcoord.lb;
        self.bounds[i + 1] = k.xcoord.ub;
        self.bounds[i + 2] = k.ycoord.lb;
        self.bounds[i + 3] = k.ycoord.ub;
        self.count = n + 1;
    }

    // The numbers of its rectangles, all where there is no room for so many.
    #[tactic(auto, using(crate::proofs::Gathering::all_lent))]
    pub fn bounds(&self) -> &[i32]
        ensures { result.now ≡ take (4 * self.now.count) self.now.bounds }
    {
        &self.bounds[..tree::KEEPOUT_BOUNDS * self.count.min(ROOM)]
    }
}

// The first `count` of a list, for a caller that has its rectangles by value.
#[derive(Clone, Copy)]
pub struct Rectangles {
    pub list: [Rectangle; ROOM],
    pub count: usize,
}

impl Rectangles {
    // The first `count`, all where there are not so many.
    #[tactic(auto, using(crate::proofs::Gathering::all_taken))]
    pub fn lent(&self) -> &[Rectangle]
        ensures { result.now ≡ take self.now.count self.now.list }
    {
        &self.list[..self.count.min(ROOM)]
    }
}

// The numbers of a lent list of rectangles.
pub fn gather(ks: &[Rectangle]) -> Flat
    ensures { Gathers ks.now result }
{
    let mut f = Flat::none();
    for k in ks {
        f.add(*k);
    }
    f
}
