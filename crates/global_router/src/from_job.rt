// The tree of a job: a file of its own, since its contract names definitions over the tree.
ghost use Rattle.std.specs.Prelude.{◌≡◌};
ghost use Rattle.route.specs.Routing.{route_of};
ghost use Rattle.route.specs.Demand3.{Owed};
ghost use Rattle.global_router.specs.Calls.{routing_from};

use crate::GlobalRoutingTree;
use refusal::Refusal;

// Refusals: 1 to 6, of the job's bytes.
pub fn route(bytes: &[u8]) -> Result<GlobalRoutingTree, Refusal>
    ensures is { routing_from result ≡ route_of bytes.now }
    ensures owed { Owed bytes.now (routing_from result) }
{
    let t = route::route_table(bytes)?;
    Ok(GlobalRoutingTree::from_table(&t))
}
