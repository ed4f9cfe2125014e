//! The components of a script, found by their names.

ghost use Rattle.std.specs.Prelude.{◌≡◌, ◌<◌, IfOk, option_map, length};
ghost use Rattle.cv_expand.specs.Components.{components_in, component_of, component_places, component_at};

use crate::named::Named;
use cv_syntax::{Component, Item};
use cv_token::OutOfMemory;
use std::alloc::Global;
use std::marker::Model;

/// The components of a script; of a name that is declared twice the first counts. Contracts see the list of them.
#[derive(Drop)]
pub struct Components<'a> {
    script: &'a [Item],
    places: Named<usize>,
}

impl<'a> Model for Components<'a> {
    ghost use Rattle.std.specs.Prelude.{◌≡◌, List};
    ghost use Rattle.std.specs.Coded.{codes};
    ghost use Rattle.cv_syntax.specs.contracts.tree.Literal as literal;
    ghost use Rattle.cv_syntax.specs.declared.tree.Component.{Component};
    ghost use Rattle.cv_expand.specs.Components.{components_in, component_places};

    ghost Value = { List Component };

    ghost coded = { Prim.hlevel (codes, literal.the_row.coded) };

    ghost view = { λ c. components_in c.script.now };

    ghost invariant = { λ c. c.places ≡ component_places 0 c.script.now };
}

impl<'a> Components<'a> {
    /// The components among the items of a script.
    pub fn of(alloc: Global, script: &'a [Item]) -> Result<Components<'a>, OutOfMemory>
        ensures { IfOk result (λ c. c ≡ components_in script.now) }
    {
        let places = places_of(alloc, script)?;
        Ok(Components { script, places })
    }

    /// The component of a name.
    pub fn find(&self, name: &str) -> Option<&Component>
        ensures { option_map (λ c. c.now) result ≡ component_of self.now name.now }
    {
        match self.places.get(name) {
            Some(place) => component_at(self.script, *place),
            None => None,
        }
    }
}

/// The component that the item at a place declares.
fn component_at(script: &[Item], place: usize) -> Option<&Component>
    ensures { option_map (λ c. c.now) result ≡ component_at script.now place }
{
    match script.get(place) {
        Some(Item::Component(component)) => Some(component),
        _ => None,
    }
}

/// Which item declares a component of a name.
fn places_of(alloc: Global, script: &[Item]) -> Result<Named<usize>, OutOfMemory>
    ensures { IfOk result (λ places. places ≡ component_places 0 script.now) }
{
    let mut places = Named::new(alloc);
    for (place, item) in script.iter().enumerate() {
        if let Item::Component(component) = item {
            places = places.with(alloc, component.name.text.as_text().copy(alloc)?, place)?;
        }
    }
    Ok(places)
}
