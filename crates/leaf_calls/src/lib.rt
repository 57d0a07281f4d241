// Functions of the leaf crates over plain numbers, which leaf_calls_c exports to C for compare/, where they are held to the Rust.
// A point goes in as x, y; a rectangle as its bounds lower x, upper x, lower y, upper y. C asks for one number at a call, so there is a function for each.
#![tactic(auto)]

ghost use Rattle.std.specs.Prelude.{◌≡◌};
ghost use Rattle.std.specs.Float.{binary64};
ghost use Rattle.std.specs.Float.Ieee.{of_bits};
ghost use Rattle.geometry.specs.Geometry.{gap, dist, box, nearest, dist_to, contains, covers, blocks};
ghost use Rattle.allowance.specs.Allowance.{allowed_of};
ghost use Rattle.leaf_calls.specs.Shapes.{point_of, interval_of, rectangle_of};

use geometry::{Interval, Point, Rectangle};

// ---- shapes of numbers

fn point(xcoord: i32, ycoord: i32) -> Point
    ensures { result ≡ point_of xcoord ycoord }
{
    Point { xcoord, ycoord }
}

fn interval(lb: i32, ub: i32) -> Interval
    ensures { result ≡ interval_of lb ub }
{
    Interval { lb, ub }
}

fn rectangle(xl: i32, xu: i32, yl: i32, yu: i32) -> Rectangle
    ensures { result ≡ rectangle_of xl xu yl yu }
{
    Rectangle {
        xcoord: interval(xl, xu),
        ycoord: interval(yl, yu),
    }
}

// ---- what the Rust is compared with

pub fn leaf_calls_min_dist(a: i32, b: i32) -> u32
    ensures { result ≡ gap a b }
{
    geometry::min_dist(a, b)
}

pub fn leaf_calls_interval_contains(lb: i32, ub: i32, lb2: i32, ub2: i32) -> bool
    ensures { result ≡ covers (interval_of lb ub) (interval_of lb2 ub2) }
{
    interval(lb, ub).contains(interval(lb2, ub2))
}

pub fn leaf_calls_point_min_dist_with(px: i32, py: i32, qx: i32, qy: i32) -> u64
    ensures { result ≡ dist (point_of px py) (point_of qx qy) }
{
    point(px, py).min_dist_with(point(qx, qy))
}

// The box of two points. Its bounds go out one by one, in four calls: the C interface gives one number a call.
fn hull_with(px: i32, py: i32, qx: i32, qy: i32) -> Rectangle
    ensures { result ≡ box (point_of px py) (point_of qx qy) }
{
    point(px, py).hull_with(point(qx, qy))
}

pub fn leaf_calls_hull_with_x_lb(px: i32, py: i32, qx: i32, qy: i32) -> i32
    ensures { result ≡ (box (point_of px py) (point_of qx qy)).xcoord.lb }
{
    hull_with(px, py, qx, qy).xcoord.lb
}

pub fn leaf_calls_hull_with_x_ub(px: i32, py: i32, qx: i32, qy: i32) -> i32
    ensures { result ≡ (box (point_of px py) (point_of qx qy)).xcoord.ub }
{
    hull_with(px, py, qx, qy).xcoord.ub
}

pub fn leaf_calls_hull_with_y_lb(px: i32, py: i32, qx: i32, qy: i32) -> i32
    ensures { result ≡ (box (point_of px py) (point_of qx qy)).ycoord.lb }
{
    hull_with(px, py, qx, qy).ycoord.lb
}

pub fn leaf_calls_hull_with_y_ub(px: i32, py: i32, qx: i32, qy: i32) -> i32
    ensures { result ≡ (box (point_of px py) (point_of qx qy)).ycoord.ub }
{
    hull_with(px, py, qx, qy).ycoord.ub
}

// The nearest point. Its coordinates go out one by one, as those bounds do.
fn nearest_to(xl: i32, xu: i32, yl: i32, yu: i32, px: i32, py: i32) -> Point
    ensures { result ≡ nearest (rectangle_of xl xu yl yu) (point_of px py) }
{
    rectangle(xl, xu, yl, yu).nearest_to(point(px, py))
}

pub fn leaf_calls_nearest_to_x(xl: i32, xu: i32, yl: i32, yu: i32, px: i32, py: i32) -> i32
    ensures { result ≡ (nearest (rectangle_of xl xu yl yu) (point_of px py)).xcoord }
{
    nearest_to(xl, xu, yl, yu, px, py).xcoord
}

pub fn leaf_calls_nearest_to_y(xl: i32, xu: i32, yl: i32, yu: i32, px: i32, py: i32) -> i32
    ensures { result ≡ (nearest (rectangle_of xl xu yl yu) (point_of px py)).ycoord }
{
    nearest_to(xl, xu, yl, yu, px, py).ycoord
}

pub fn leaf_calls_rectangle_min_dist_with(
    xl: i32,
    xu: i32,
    yl: i32,
    yu: i32,
    px: i32,
    py: i32,
) -> u64
    ensures { result ≡ dist_to (rectangle_of xl xu yl yu) (point_of px py) }
{
    rectangle(xl, xu, yl, yu).min_dist_with(point(px, py))
}

pub fn leaf_calls_contains(xl: i32, xu: i32, yl: i32, yu: i32, px: i32, py: i32) -> bool
    ensures { result ≡ contains (rectangle_of xl xu yl yu) (point_of px py) }
{
    rectangle(xl, xu, yl, yu).contains(point(px, py))
}

// Whether the first rectangle blocks the second.
pub fn leaf_calls_blocks(
    xl: i32,
    xu: i32,
    yl: i32,
    yu: i32,
    xl2: i32,
    xu2: i32,
    yl2: i32,
    yu2: i32,
) -> bool
    ensures { result ≡ blocks (rectangle_of xl xu yl yu) (rectangle_of xl2 xu2 yl2 yu2) }
{
    rectangle(xl, xu, yl, yu).blocks(rectangle(xl2, xu2, yl2, yu2))
}

pub fn leaf_calls_allowed(w: u32, bits: u64) -> i32
    ensures { result ≡ allowed_of w (of_bits binary64 bits) }
{
    allowance::allowed_of_bits(w, bits)
}
