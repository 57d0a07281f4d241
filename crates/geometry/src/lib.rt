// Points, intervals and rectangles, after generic.rs, interval.rs and point.rs of physdes-rs.
// Total on every i32: differences are taken in i64, so that none overflows.
#![tactic(auto)]

ghost use Rattle.std.specs.Prelude.{◌≡◌, ◌&&◌};
ghost use Rattle.geometry.specs.Geometry.{gap, dist, min_z, max_z, hull, box, clip, nearest, dist_to, invalid, inside, contains, covers, blocks, same};

#[derive(Clone, Copy, Debug, PartialEq, Eq)]
pub struct Point {
    pub xcoord: i32,
    pub ycoord: i32,
}

// All numbers from lb to ub, both included; none where lb is above ub.
#[derive(Clone, Copy, Debug, PartialEq, Eq)]
pub struct Interval {
    pub lb: i32,
    pub ub: i32,
}

// The Rust's Point of two intervals.
#[derive(Clone, Copy, Debug, PartialEq, Eq)]
pub struct Rectangle {
    pub xcoord: Interval,
    pub ycoord: Interval,
}

// ---- numbers

// `min_dist_with` of two numbers: the Rust's name, as `hull` and the like.
#[tactic(auto, unfolding(crate::specs::Geometry::gap))]
pub fn min_dist(a: i32, b: i32) -> u32
    ensures { result ≡ gap a b }
{
    a.abs_diff(b)
}

// `hull_with` of two numbers.
#[tactic(auto, unfolding(crate::specs::Geometry::min_z, crate::specs::Geometry::max_z))]
pub fn hull(a: i32, b: i32) -> Interval
    ensures { result ≡ hull a b }
{
    Interval {
        lb: a.min(b),
        ub: a.max(b),
    }
}

// ---- intervals

impl Interval {
    #[tactic(auto, unfolding(crate::specs::Geometry::invalid))]
    pub fn is_invalid(self) -> bool
        ensures { result ≡ invalid self }
    {
        self.ub < self.lb
    }

    // Whether a number lies within the bounds. `&` takes no branch: of keepouts in no order it would often be guessed wrongly.
    #[tactic(auto, unfolding(crate::specs::Geometry::inside))]
    pub fn contains_value(self, v: i32) -> bool
        ensures { result ≡ inside self v }
    {
        (self.lb <= v) & (v <= self.ub)
    }

    #[tactic(auto, unfolding(crate::specs::Geometry::covers))]
    pub fn contains(self, other: Interval) -> bool
        ensures { result ≡ covers self other }
    {
        self.lb <= other.lb && other.ub <= self.ub
    }

    #[tactic(auto, unfolding(crate::specs::Geometry::clip, crate::specs::Geometry::min_z, crate::specs::Geometry::max_z))]
    pub fn nearest_to(self, v: i32) -> i32
        ensures { result ≡ clip self v }
    {
        self.lb.max(v.min(self.ub))
    }
}

// ---- points

impl Point {
    // Two points can be farther apart than a u32 tells.
    #[tactic(auto, unfolding(crate::specs::Geometry::dist))]
    pub fn min_dist_with(self, other: Point) -> u64
        ensures { result ≡ dist self other }
    {
        let x = min_dist(self.xcoord, other.xcoord);
        let y = min_dist(self.ycoord, other.ycoord);
        u64::from(x) + u64::from(y)
    }

    // The box of two points.
    pub fn hull_with(self, other: Point) -> Rectangle
        ensures { result ≡ box self other }
    {
        Rectangle {
            xcoord: hull(self.xcoord, other.xcoord),
            ycoord: hull(self.ycoord, other.ycoord),
        }
    }
}

// ---- rectangles

impl Rectangle {
    pub fn nearest_to(self, p: Point) -> Point
        ensures { result ≡ nearest self p }
    {
        Point {
            xcoord: self.xcoord.nearest_to(p.xcoord),
            ycoord: self.ycoord.nearest_to(p.ycoord),
        }
    }

    pub fn min_dist_with(self, p: Point) -> u64
        ensures { result ≡ dist_to self p }
    {
        self.nearest_to(p).min_dist_with(p)
    }

    #[tactic(auto, unfolding(crate::specs::Geometry::contains))]
    pub fn contains(self, p: Point) -> bool
        ensures { result ≡ contains self p }
    {
        self.xcoord.contains_value(p.xcoord) && self.ycoord.contains_value(p.ycoord)
    }

    // Whether this rectangle cuts the box from side to side: it spans one of the box's intervals and lies within the other.
    // One that covers the box and more does not block it.
    #[tactic(auto, unfolding(crate::specs::Geometry::blocks))]
    pub fn blocks(self, other: Rectangle) -> bool
        ensures { result ≡ blocks self other }
    {
        self.xcoord.contains(other.xcoord) && other.ycoord.contains(self.ycoord)
            || self.ycoord.contains(other.ycoord) && other.xcoord.contains(self.xcoord)
    }
}
