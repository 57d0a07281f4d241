// What a tree is: its nodes in memory, and the limits, each once. The definitions and their laws stand in specs/ and proofs/.
#![tactic(auto)]

ghost use Rattle.std.specs.Prelude.{◌≡◌, ◌<◌, length};
ghost use Rattle.tree.specs.Measures.{kind_of, number_of};
ghost use Rattle.tree.specs.Memory.{type_number, type_of, named, name_in, point_at};

use geometry::Point;

// No coordinate of a source or terminal is farther from 0.
pub const REACH: i32 = 1000000;

pub const MOST_TERMINALS: usize = 120;

pub const MOST_KEEPOUTS: usize = 64;

// How many numbers a keepout has: lower x, upper x, lower y, upper y.
pub const KEEPOUT_BOUNDS: usize = 4;

pub const MOST_NODES: usize = 250;

// `worst_wirelength` of a fresh tree.
pub const NO_LIMIT: u32 = 2147483647;

// The path length of a node that no search has joined: document 01 has 0, and not none.
pub const UNMEASURED: u32 = 0;

// What stands for no node in a column of indices.
pub const NO_NODE: u16 = u16::MAX;

// A node's index, a Steiner number and a terminal number: none serves for another.
#[derive(Clone, Copy, Debug, PartialEq, Eq, Hash)]
pub struct NodeIndex(pub u16);

#[derive(Clone, Copy, Debug, PartialEq, Eq, Hash)]
pub struct SteinerNumber(pub u16);

#[derive(Clone, Copy, Debug, PartialEq, Eq, Hash)]
pub struct TerminalNumber(pub u16);

impl From<NodeIndex> for usize {
    ghost from_gives = { λ i n. n ≡ i.0 };

    fn from(i: NodeIndex) -> usize {
        usize::from(i.0)
    }
}

// The Rust's `node_type`.
#[derive(Clone, Copy, Debug, PartialEq, Eq, Hash)]
pub enum NodeType {
    Source,
    Steiner,
    Terminal,
}

// As a column and a record hold it: the numbers of document 01.
impl From<NodeType> for u16 {
    ghost from_gives = { λ t n. n ≡ type_number t };

    fn from(t: NodeType) -> u16 {
        match t {
            NodeType::Source => 0,
            NodeType::Steiner => 1,
            NodeType::Terminal => 2,
        }
    }
}

// Any other number is a terminal's.
impl From<u16> for NodeType {
    ghost from_gives = { λ n t. t ≡ type_of n };

    fn from(n: u16) -> NodeType {
        match n {
            0 => NodeType::Source,
            1 => NodeType::Steiner,
            _ => NodeType::Terminal,
        }
    }
}

// The Rust's `id`.
#[derive(Clone, Copy, Debug, PartialEq, Eq, Hash)]
pub enum NodeName {
    Source,
    Steiner(SteinerNumber),
    Terminal(TerminalNumber),
}

impl NodeName {
    // The name of a kind that has a number; the source has none.
    pub fn new(kind: NodeType, number: u16) -> NodeName
        ensures { result ≡ named kind number }
    {
        match kind {
            NodeType::Source => NodeName::Source,
            NodeType::Steiner => NodeName::Steiner(SteinerNumber(number)),
            NodeType::Terminal => NodeName::Terminal(TerminalNumber(number)),
        }
    }

    pub fn node_type(self) -> NodeType
        ensures { type_number result ≡ kind_of (name_in self) }
    {
        match self {
            NodeName::Source => NodeType::Source,
            NodeName::Steiner(_) => NodeType::Steiner,
            NodeName::Terminal(_) => NodeType::Terminal,
        }
    }

    // 0 for the source.
    pub fn number(self) -> u16
        ensures { result ≡ number_of (name_in self) }
    {
        match self {
            NodeName::Source => 0,
            NodeName::Steiner(k) => k.0,
            NodeName::Terminal(k) => k.0,
        }
    }
}

// A node, but for its children, which the tree's links have.
#[derive(Clone, Copy)]
pub struct RoutingNode {
    pub name: NodeName,
    pub parent: Option<NodeIndex>,
    pub pt: Point,
    pub path_length: u32,
    pub capacitance: f64,
    pub delay: f64,
}

// The point that stands at i in two columns.
pub fn point_at(xs: &[i32], ys: &[i32], i: usize) -> Point
    requires { (i < length xs.now) × (i < length ys.now) }
    ensures { result ≡ point_at xs.now ys.now i }
{
    Point {
        xcoord: xs[i],
        ycoord: ys[i],
    }
}
