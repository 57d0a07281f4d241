// Calls the functions of `exports` and `leaf_calls` as C does: by place. A contract names parameters, so nothing there holds
// their order; here a call with them in another order is not proved. What `exports_c` and `leaf_calls_c` export they call by
// place themselves, since no crate can depend on a static library.
#![tactic(auto)]

ghost use Rattle.std.specs.Prelude.{◌≡◌};
ghost use Rattle.std.specs.Float.{binary64};
ghost use Rattle.std.specs.Float.Ieee.{of_bits};
ghost use Rattle.geometry.specs.Geometry.{gap, dist, box, nearest, dist_to, contains, covers, blocks};
ghost use Rattle.allowance.specs.Allowance.{allowed_of};
ghost use Rattle.route.specs.Routing.{route_of};
ghost use Rattle.planning.specs.Output.{output_of};
ghost use Rattle.exports.specs.Numbers.{Writes, BytesOf};
ghost use Rattle.by_place.specs.Lent.{called_of};

use geometry::{Interval, Point, Rectangle};

// ---- exports

pub fn plan(job: &[u8], out: &mut [u8]) -> i64
    ensures { Writes (output_of job.now) out.old result out.new }
{
    exports::ferruleslate_plan(job, out)
}

pub fn tree_bytes(job: &[u8], out: &mut [u8]) -> i64
    ensures { BytesOf (route_of job.now) out.old result out.new }
{
    exports::ferruleslate_tree_bytes(job, out)
}

// The answer and the figures of a call that lends four zeros.
#[derive(Clone, Copy)]
pub struct Called {
    pub status: i64,
    pub allowed: i32,
    pub farthest: u32,
    pub total: u32,
    pub worst: u32,
}

// `allowed` is read through its reference: only so is it known to fit.
pub fn figures(job: &[u8]) -> Called
    ensures { result ≡ called_of (route_of job.now) }
{
    let mut allowed: i32 = 0;
    let mut farthest: u32 = 0;
    let mut total: u32 = 0;
    let mut worst: u32 = 0;
    let lent = &mut allowed;
    let status = exports::ferruleslate_figures(job, lent, &mut farthest, &mut total, &mut worst);
    let value = *lent;
    Called {
        status,
        allowed: value,
        farthest,
        total,
        worst,
    }
}

// ---- leaf_calls: each by the name that is called, one line each

pub fn min_dist(a: i32, b: i32) -> u32
    ensures { result ≡ gap a b }
{
    leaf_calls::leaf_calls_min_dist(a, b)
}

pub fn interval_contains(a: Interval, b: Interval) -> bool
    ensures { result ≡ covers «a» «b» }
{
    leaf_calls::leaf_calls_interval_contains(a.lb, a.ub, b.lb, b.ub)
}

pub fn point_min_dist_with(p: Point, q: Point) -> u64
    ensures { result ≡ dist «p» «q» }
{
    leaf_calls::leaf_calls_point_min_dist_with(p.xcoord, p.ycoord, q.xcoord, q.ycoord)
}

pub fn hull_with(p: Point, q: Point) -> Rectangle
    ensures { result ≡ box «p» «q» }
{
    let px = p.xcoord;
    let py = p.ycoord;
    let qx = q.xcoord;
    let qy = q.ycoord;
    let xl = leaf_calls::leaf_calls_hull_with_x_lb(px, py, qx, qy);
    let xu = leaf_calls::leaf_calls_hull_with_x_ub(px, py, qx, qy);
    let yl = leaf_calls::leaf_calls_hull_with_y_lb(px, py, qx, qy);
    let yu = leaf_calls::leaf_calls_hull_with_y_ub(px, py, qx, qy);
    let x = Interval { lb: xl, ub: xu };
    let y = Interval { lb: yl, ub: yu };
    Rectangle {
        xcoord: x,
        ycoord: y,
    }
}

pub fn nearest_to(k: Rectangle, p: Point) -> Point
    ensures { result ≡ nearest «k» «p» }
{
    let h = k.xcoord;
    let v = k.ycoord;
    let xl = h.lb;
    let xu = h.ub;
    let yl = v.lb;
    let yu = v.ub;
    let px = p.xcoord;
    let py = p.ycoord;
    let x = leaf_calls::leaf_calls_nearest_to_x(xl, xu, yl, yu, px, py);
    let y = leaf_calls::leaf_calls_nearest_to_y(xl, xu, yl, yu, px, py);
    Point {
        xcoord: x,
        ycoord: y,
    }
}

pub fn rectangle_min_dist_with(k: Rectangle, p: Point) -> u64
    ensures { result ≡ dist_to «k» «p» }
{
    let h = k.xcoord;
    let v = k.ycoord;
    leaf_calls::leaf_calls_rectangle_min_dist_with(h.lb, h.ub, v.lb, v.ub, p.xcoord, p.ycoord)
}

pub fn rectangle_contains(k: Rectangle, p: Point) -> bool
    ensures { result ≡ contains «k» «p» }
{
    let h = k.xcoord;
    let v = k.ycoord;
    leaf_calls::leaf_calls_contains(h.lb, h.ub, v.lb, v.ub, p.xcoord, p.ycoord)
}

pub fn rectangle_blocks(k: Rectangle, b: Rectangle) -> bool
    ensures { result ≡ blocks «k» «b» }
{
    let h = k.xcoord;
    let v = k.ycoord;
    let x = b.xcoord;
    let y = b.ycoord;
    leaf_calls::leaf_calls_blocks(h.lb, h.ub, v.lb, v.ub, x.lb, x.ub, y.lb, y.ub)
}

pub fn allowed(w: u32, bits: u64) -> i32
    ensures { result ≡ allowed_of w (of_bits binary64 bits) }
{
    leaf_calls::leaf_calls_allowed(w, bits)
}
