//! A run on one node, or over several with faults of links.

ghost use Rattle.std.specs.Prelude.{◌≡◌, None, map, All, IfOk};
ghost use Rattle.cv_kinds.specs.Wired.{IsWired};
ghost use Rattle.cv_top.specs.Ran.{IsNear, IsRightRecord, link_item};
ghost use Rattle.cv_words.specs.Items.{stray_in};

use cv_alone::{RunEnd, run_alone};
use cv_io::Gate;
use cv_kinds::Network;
use cv_link::Item;
use cv_protocol::Record;
use cv_spread::run_spread;
use cv_token::OutOfMemory;
use cv_words::{LinkItem, RunWords, What};
use std::alloc::Global;
use std::thread::Threads;

/// Runs a network as the words ask: how the run stopped, and its record.
pub fn run_on_nodes<R: Threads + Sync, G: Gate>(
    rt: &R,
    alloc: Global,
    net: Network,
    words: &RunWords,
    gate: &G,
) -> Result<(RunEnd, Record), OutOfMemory>
    requires wired { IsWired net }
    requires fits { stray_in words.now.nodes words.now.items ≡ None }
    ensures { IfOk result (λ run. IsRightRecord words.now net run.0 run.1) }
{
    let nodes = words.nodes();
    let firings = words.firings();
    if nodes == 1 {
        return run_alone(alloc, net, firings);
    }
    let items = link_items(alloc, words.items())?;
    run_spread(rt, alloc, net, nodes, items, firings, gate)
}

/// What becomes of the frames that the items of the words name.
fn link_items(alloc: Global, items: &[LinkItem]) -> Result<Vec<Item>, OutOfMemory>
    requires { All IsNear items.now }
    ensures { IfOk result (λ made. made.items ≡ map link_item items.now) }
{
    let mut made = Vec::new(alloc);
    for item in items {
        made.push(link_item(item))?;
    }
    Ok(made)
}

/// What becomes of the frame that an item of the words names.
fn link_item(item: &LinkItem) -> Item
    requires { IsNear item.now }
    ensures { result ≡ link_item item.now }
{
    let from = item.from as u16;
    let to = item.to as u16;
    let k = item.k;
    match item.what {
        What::Lose => Item::Lose { from, to, k },
        What::Twice => Item::Twice { from, to, k },
        What::Cut => Item::Cut { from, to, k },
    }
}
