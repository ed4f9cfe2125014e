//! What is told of the journals.

ghost use Rattle.std.specs.Prelude.{◌≡◌, map, IfOk};
ghost use Rattle.cv_cluster.specs.Cluster.{length_of};
ghost use Rattle.cv_cluster.specs.Holding.{AllFew, node_of};
ghost use Rattle.cv_node.specs.Journalled.{Journalled};

use cv_protocol::Journal;
use cv_station::Station;
use cv_token::OutOfMemory;
use std::alloc::Global;

/// How many entries the journal of that node has.
pub(crate) fn length_at(stations: &[Station], node: u16) -> u32
    requires { AllFew stations.now }
    ensures { result ≡ length_of (map node_of stations.now) node }
{
    for station in stations {
        if station.node.journal().spec.no == node {
            return station.entries() as u32;
        }
    }
    0
}

/// The journals of all nodes.
pub(crate) fn journals(alloc: Global, stations: Vec<Station>) -> Result<Vec<Journal>, OutOfMemory>
    ensures entries { IfOk result (λ js. map (λ j. j.entries.items) js.items ≡ map (λ n. n.entries) (map node_of stations.items)) }
    ensures specs { IfOk result (λ js. map (λ j. j.spec) js.items ≡ map (λ n. n.base.spec) (map node_of stations.items)) }
{
    let mut journals = Vec::with_capacity(alloc, stations.len())?;
    for station in stations {
        journals.push(station.node.into_journal())?;
    }
    Ok(journals)
}
