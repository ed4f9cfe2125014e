//! Where actors and instances stand, by numbers.

ghost use Rattle.std.specs.Prelude.{◌≡◌, ◌∷◌, [], ◌++◌, List, map, IfOk, OnOk, length};
ghost use Rattle.cv_expand.specs.Lookup.{lookup};
ghost use Rattle.cv_expand.specs.Paths.{IsPath};
ghost use Rattle.cv_graph.specs.Ports.{Place, texts, actor_place, instance_place, actor_places, places};
ghost use Rattle.cv_graph.specs.Tables.{numbered, head_of, numbers_on, AreTabled, port_at, port_found};

use crate::port::{Port, Side};
use cv_expand::{Actor, Instance, Named, Parts, Path, Step, path_text};
use cv_kinds::find;
use cv_readers::Name;
use cv_token::{OutOfMemory, Text};
use sqlite_items::Items;
use std::alloc::Global;

/// The ports of a place: their numbers by their names.
#[derive(Drop)]
pub struct Head {
    pub inports: Named<usize>,
    pub outports: Named<usize>,
}

/// The actors and then the instances: the number of each by the text of its path, and the ports of each.
#[derive(Drop)]
pub struct Places {
    pub by_path: Named<usize>,
    pub heads: Items<Head>,
}

impl Head {
    /// The number of the port of that name.
    fn number(&self, side: Side, name: &str) -> Option<usize>
        ensures { result ≡ lookup (numbers_on side self.now) name.now }
    {
        let numbers = match side {
            Side::In => &self.inports,
            Side::Out => &self.outports,
        };
        numbers.get(name).copied()
    }
}

impl Places {
    /// The places of all parts.
    pub fn of(alloc: Global, parts: &Parts) -> Result<Places, OutOfMemory>
        ensures { IfOk result (AreTabled (places parts.now)) }
    {
        let table = with_actors(alloc, parts)?;
        with_instances(alloc, parts, table)
    }

    /// The port of that path, side and name.
    pub fn port(
        &self,
        alloc: Global,
        path: &[Step],
        side: Side,
        name: &str,
    ) -> Result<Option<Port>, OutOfMemory>
        ensures found { IfOk result (λ port. port ≡ port_found self.now path.now side name.now) }
        ensures named { OnOk result (IsPath path.now) }
    {
        let text = path_text(alloc, path)?;
        Ok(match self.by_path.get(text.as_str()) {
            Some(place) => self.port_at(*place, side, name),
            None => None,
        })
    }

    /// The port of that side and name at a place.
    fn port_at(&self, place: usize, side: Side, name: &str) -> Option<Port>
        ensures { result ≡ port_at self.now side name.now place }
    {
        let number = self.heads.get(place)?.number(side, name)?;
        Some(Port {
            place,
            side,
            number,
        })
    }

    /// The same places, and one more behind them.
    fn with(self, alloc: Global, path: &Path, head: Head) -> Result<Places, OutOfMemory>
        ensures { IfOk result (λ more. (ps : List Place) (p : Place) → AreTabled ps self → p.path ≡ path.now → head_of p ≡ head → AreTabled (ps ++ p ∷ []) more) }
    {
        let Places { by_path, heads } = self;
        let text = path_text(alloc, path.as_slice())?;
        let by_path = by_path.with(alloc, text, heads.len())?;
        let mut heads = heads;
        heads.push(head)?;
        Ok(Places { by_path, heads })
    }
}

/// The places of the actors.
fn with_actors(alloc: Global, parts: &Parts) -> Result<Places, OutOfMemory>
    ensures { IfOk result (AreTabled (actor_places parts.now)) }
{
    let mut table = Places {
        by_path: Named::new(alloc),
        heads: Items::new(alloc),
    };
    for actor in parts.actors.as_slice() {
        let head = actor_head(alloc, actor)?;
        table = table.with(alloc, &actor.path, head)?;
    }
    Ok(table)
}

/// The same places, and those of the instances behind them.
fn with_instances(alloc: Global, parts: &Parts, table: Places) -> Result<Places, OutOfMemory>
    requires { AreTabled (actor_places parts.now) table }
    ensures { IfOk result (AreTabled (places parts.now)) }
{
    let mut table = table;
    for instance in parts.instances.as_slice() {
        let head = instance_head(alloc, instance)?;
        table = table.with(alloc, &instance.path, head)?;
    }
    Ok(table)
}

/// The ports of an actor: those of its kind.
fn actor_head(alloc: Global, actor: &Actor) -> Result<Head, OutOfMemory>
    ensures { IfOk result (λ head. head ≡ head_of (actor_place actor.now)) }
{
    match find(actor.kind.as_str()) {
        Some(kind) => {
            let line = kind.line();
            let inports = numbered_texts(alloc, line.inports)?;
            let outports = numbered_texts(alloc, line.outports)?;
            Ok(Head { inports, outports })
        }
        None => Ok(Head {
            inports: Named::new(alloc),
            outports: Named::new(alloc),
        }),
    }
}

/// The ports of an instance: those of its component's head.
fn instance_head(alloc: Global, instance: &Instance) -> Result<Head, OutOfMemory>
    ensures { IfOk result (λ head. head ≡ head_of (instance_place instance.now)) }
{
    let inports = numbered_names(alloc, instance.inports.as_slice())?;
    let outports = numbered_names(alloc, instance.outports.as_slice())?;
    Ok(Head { inports, outports })
}

/// The numbers of texts.
fn numbered_texts(alloc: Global, texts: &[&str]) -> Result<Named<usize>, OutOfMemory>
    ensures { IfOk result (λ numbers. numbers ≡ numbered 0 (map (λ text. text.now) texts.now)) }
{
    let mut numbers = Named::new(alloc);
    for (number, text) in texts.iter().enumerate() {
        let text = Text::from_string(String::from_str(alloc, text)?);
        numbers = numbers.with(alloc, text, number)?;
    }
    Ok(numbers)
}

/// The numbers of names.
fn numbered_names(alloc: Global, names: &[Name]) -> Result<Named<usize>, OutOfMemory>
    ensures { IfOk result (λ numbers. numbers ≡ numbered 0 (texts names.now)) }
{
    let mut numbers = Named::new(alloc);
    for (number, name) in names.iter().enumerate() {
        let text = name.text.as_text().copy(alloc)?;
        numbers = numbers.with(alloc, text, number)?;
    }
    Ok(numbers)
}
