// The C calls of compare/: those of leaf_calls, under their names and clauses, as a static library. The C interface wants one function for
// each number that is asked for, so those of a box and of a nearest point come in fours and twos.
#![tactic(auto)]

ghost use Rattle.std.specs.Prelude.{◌≡◌};
ghost use Rattle.std.specs.Float.{binary64};
ghost use Rattle.std.specs.Float.Ieee.{of_bits};
ghost use Rattle.geometry.specs.Geometry.{gap, dist, box, nearest, dist_to, contains, covers, blocks};
ghost use Rattle.allowance.specs.Allowance.{allowed_of};
ghost use Rattle.leaf_calls.specs.Shapes.{point_of, interval_of, rectangle_of};

#[unsafe(no_mangle)]
pub extern "C" fn leaf_calls_min_dist(a: i32, b: i32) -> u32
    ensures { result ≡ gap a b }
{
    leaf_calls::leaf_calls_min_dist(a, b)
}

#[unsafe(no_mangle)]
pub extern "C" fn leaf_calls_interval_contains(lb: i32, ub: i32, lb2: i32, ub2: i32) -> bool
    ensures { result ≡ covers (interval_of lb ub) (interval_of lb2 ub2) }
{
    leaf_calls::leaf_calls_interval_contains(lb, ub, lb2, ub2)
}

#[unsafe(no_mangle)]
pub extern "C" fn leaf_calls_point_min_dist_with(px: i32, py: i32, qx: i32, qy: i32) -> u64
    ensures { result ≡ dist (point_of px py) (point_of qx qy) }
{
    leaf_calls::leaf_calls_point_min_dist_with(px, py, qx, qy)
}

#[unsafe(no_mangle)]
pub extern "C" fn leaf_calls_hull_with_x_lb(px: i32, py: i32, qx: i32, qy: i32) -> i32
    ensures { result ≡ (box (point_of px py) (point_of qx qy)).xcoord.lb }
{
    leaf_calls::leaf_calls_hull_with_x_lb(px, py, qx, qy)
}

#[unsafe(no_mangle)]
pub extern "C" fn leaf_calls_hull_with_x_ub(px: i32, py: i32, qx: i32, qy: i32) -> i32
    ensures { result ≡ (box (point_of px py) (point_of qx qy)).xcoord.ub }
{
    leaf_calls::leaf_calls_hull_with_x_ub(px, py, qx, qy)
}

#[unsafe(no_mangle)]
pub extern "C" fn leaf_calls_hull_with_y_lb(px: i32, py: i32, qx: i32, qy: i32) -> i32
    ensures { result ≡ (box (point_of px py) (point_of qx qy)).ycoord.lb }
{
    leaf_calls::leaf_calls_hull_with_y_lb(px, py, qx, qy)
}

#[unsafe(no_mangle)]
pub extern "C" fn leaf_calls_hull_with_y_ub(px: i32, py: i32, qx: i32, qy: i32) -> i32
    ensures { result ≡ (box (point_of px py) (point_of qx qy)).ycoord.ub }
{
    leaf_calls::leaf_calls_hull_with_y_ub(px, py, qx, qy)
}

#[unsafe(no_mangle)]
pub extern "C" fn leaf_calls_nearest_to_x(
    xl: i32,
    xu: i32,
    yl: i32,
    yu: i32,
    px: i32,
    py: i32,
) -> i32
    ensures { result ≡ (nearest (rectangle_of xl xu yl yu) (point_of px py)).xcoord }
{
    leaf_calls::leaf_calls_nearest_to_x(xl, xu, yl, yu, px, py)
}

#[unsafe(no_mangle)]
pub extern "C" fn leaf_calls_nearest_to_y(
    xl: i32,
    xu: i32,
    yl: i32,
    yu: i32,
    px: i32,
    py: i32,
) -> i32
    ensures { result ≡ (nearest (rectangle_of xl xu yl yu) (point_of px py)).ycoord }
{
    leaf_calls::leaf_calls_nearest_to_y(xl, xu, yl, yu, px, py)
}

#[unsafe(no_mangle)]
pub extern "C" fn leaf_calls_rectangle_min_dist_with(
    xl: i32,
    xu: i32,
    yl: i32,
    yu: i32,
    px: i32,
    py: i32,
) -> u64
    ensures { result ≡ dist_to (rectangle_of xl xu yl yu) (point_of px py) }
{
    leaf_calls::leaf_calls_rectangle_min_dist_with(xl, xu, yl, yu, px, py)
}

#[unsafe(no_mangle)]
pub extern "C" fn leaf_calls_contains(xl: i32, xu: i32, yl: i32, yu: i32, px: i32, py: i32) -> bool
    ensures { result ≡ contains (rectangle_of xl xu yl yu) (point_of px py) }
{
    leaf_calls::leaf_calls_contains(xl, xu, yl, yu, px, py)
}

// Whether the first rectangle blocks the second.
#[unsafe(no_mangle)]
pub extern "C" fn leaf_calls_blocks(
    xl: i32,
    xu: i32,
    yl: i32,
    yu: i32,
    xl2: i32,
    xu2: i32,
    yl2: i32,
    yu2: i32,
) -> bool
    ensures { result ≡ blocks (rectangle_of xl xu yl yu) (rectangle_of xl2 xu2 yl2 yu2) }
{
    leaf_calls::leaf_calls_blocks(xl, xu, yl, yu, xl2, xu2, yl2, yu2)
}

#[unsafe(no_mangle)]
pub extern "C" fn leaf_calls_allowed(w: u32, bits: u64) -> i32
    ensures { result ≡ allowed_of w (of_bits binary64 bits) }
{
    leaf_calls::leaf_calls_allowed(w, bits)
}

// ---- called as C does, by place: a contract names parameters, so nothing above holds their order

pub fn min_dist_by_place(a: i32, b: i32) -> u32
    ensures { result ≡ gap a b }
{
    leaf_calls_min_dist(a, b)
}

pub fn interval_contains_by_place(lb: i32, ub: i32, lb2: i32, ub2: i32) -> bool
    ensures { result ≡ covers (interval_of lb ub) (interval_of lb2 ub2) }
{
    leaf_calls_interval_contains(lb, ub, lb2, ub2)
}

pub fn point_min_dist_with_by_place(px: i32, py: i32, qx: i32, qy: i32) -> u64
    ensures { result ≡ dist (point_of px py) (point_of qx qy) }
{
    leaf_calls_point_min_dist_with(px, py, qx, qy)
}

pub fn hull_with_x_lb_by_place(px: i32, py: i32, qx: i32, qy: i32) -> i32
    ensures { result ≡ (box (point_of px py) (point_of qx qy)).xcoord.lb }
{
    leaf_calls_hull_with_x_lb(px, py, qx, qy)
}

pub fn hull_with_x_ub_by_place(px: i32, py: i32, qx: i32, qy: i32) -> i32
    ensures { result ≡ (box (point_of px py) (point_of qx qy)).xcoord.ub }
{
    leaf_calls_hull_with_x_ub(px, py, qx, qy)
}

pub fn hull_with_y_lb_by_place(px: i32, py: i32, qx: i32, qy: i32) -> i32
    ensures { result ≡ (box (point_of px py) (point_of qx qy)).ycoord.lb }
{
    leaf_calls_hull_with_y_lb(px, py, qx, qy)
}

pub fn hull_with_y_ub_by_place(px: i32, py: i32, qx: i32, qy: i32) -> i32
    ensures { result ≡ (box (point_of px py) (point_of qx qy)).ycoord.ub }
{
    leaf_calls_hull_with_y_ub(px, py, qx, qy)
}

pub fn nearest_to_x_by_place(xl: i32, xu: i32, yl: i32, yu: i32, px: i32, py: i32) -> i32
    ensures { result ≡ (nearest (rectangle_of xl xu yl yu) (point_of px py)).xcoord }
{
    leaf_calls_nearest_to_x(xl, xu, yl, yu, px, py)
}

pub fn nearest_to_y_by_place(xl: i32, xu: i32, yl: i32, yu: i32, px: i32, py: i32) -> i32
    ensures { result ≡ (nearest (rectangle_of xl xu yl yu) (point_of px py)).ycoord }
{
    leaf_calls_nearest_to_y(xl, xu, yl, yu, px, py)
}

pub fn rectangle_min_dist_with_by_place(xl: i32, xu: i32, yl: i32, yu: i32, px: i32, py: i32) -> u64
    ensures { result ≡ dist_to (rectangle_of xl xu yl yu) (point_of px py) }
{
    leaf_calls_rectangle_min_dist_with(xl, xu, yl, yu, px, py)
}

pub fn contains_by_place(xl: i32, xu: i32, yl: i32, yu: i32, px: i32, py: i32) -> bool
    ensures { result ≡ contains (rectangle_of xl xu yl yu) (point_of px py) }
{
    leaf_calls_contains(xl, xu, yl, yu, px, py)
}

pub fn blocks_by_place(
    xl: i32,
    xu: i32,
    yl: i32,
    yu: i32,
    xl2: i32,
    xu2: i32,
    yl2: i32,
    yu2: i32,
) -> bool
    ensures { result ≡ blocks (rectangle_of xl xu yl yu) (rectangle_of xl2 xu2 yl2 yu2) }
{
    leaf_calls_blocks(xl, xu, yl, yu, xl2, xu2, yl2, yu2)
}

pub fn allowed_by_place(w: u32, bits: u64) -> i32
    ensures { result ≡ allowed_of w (of_bits binary64 bits) }
{
    leaf_calls_allowed(w, bits)
}
