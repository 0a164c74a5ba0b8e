//! Bills as a graph of places.
ghost use Rattle.std.specs.Prelude.{◌≡◌, ◌<◌, ℕ, ◌++◌, ◌∷◌, [], List, length, Some, IfOk, OnOk, slice_get, slice_set};
ghost use Rattle.plan_schema.specs.declared.name.Name.{Name};
ghost use Rattle.low_level_codes.specs.Graphs.{shown, at};
ghost use Rattle.low_level_codes.specs.Numbers.{IsGraph, Keeps, StandAt};

use crate::numbering::Numbering;
use plan_schema::Name;
use std::alloc::{AllocError, Global};

/// Names at places, with the places of the parents and of the components of each.
#[derive(Drop)]
pub struct Graph {
    pub names: Numbering,
    pub ups: Vec<Vec<usize>>,
    pub downs: Vec<Vec<usize>>,
}

/// Appends a place to the list at a place.
fn push_at(lists: &mut Vec<Vec<usize>>, place: usize, item: usize) -> Result<(), AllocError>
    requires { place < length lists.old.items }
    ensures { let before = shown lists.old.items in
        OnOk result (shown lists.new.items ≡ slice_set before place (at before place ++ item ∷ [])) }
{
    let list = &mut lists[place];
    list.push(item)?;
    Ok(())
}

impl Graph {
    /// No names.
    pub fn new(alloc: Global) -> Graph
        ensures { IsGraph [] result.names (shown result.ups.items) (shown result.downs.items) }
    {
        Graph {
            names: Numbering::new(alloc),
            ups: Vec::new(alloc),
            downs: Vec::new(alloc),
        }
    }

    /// The place of a name, which gets one where it has none.
    pub fn place_of(&mut self, alloc: Global, name: Name) -> Result<usize, AllocError>
        requires ups { length self.old.ups.items ≡ length self.old.names }
        requires downs { length self.old.downs.items ≡ length self.old.names }
        ensures stands { IfOk result (λ i. slice_get self.new.names i ≡ Some name) }
        ensures keeps { OnOk result (Keeps self.old.names self.new.names) }
        ensures ups { OnOk result (length self.new.ups.items ≡ length self.new.names) }
        ensures downs { OnOk result (length self.new.downs.items ≡ length self.new.names) }
        ensures graph { OnOk result ((bills : List (Name × Name))
            → IsGraph bills self.old.names (shown self.old.ups.items) (shown self.old.downs.items)
            → IsGraph bills self.new.names (shown self.new.ups.items)
            (shown self.new.downs.items)) }
    {
        let place = self.names.number(name)?;
        if place == self.ups.len() {
            self.ups.push(Vec::new(alloc))?;
            self.downs.push(Vec::new(alloc))?;
        }
        Ok(place)
    }

    /// Adds a bill.
    fn add(&mut self, alloc: Global, component: Name, parent: Name) -> Result<(), AllocError>
        requires ups { length self.old.ups.items ≡ length self.old.names }
        requires downs { length self.old.downs.items ≡ length self.old.names }
        ensures ups { OnOk result (length self.new.ups.items ≡ length self.new.names) }
        ensures downs { OnOk result (length self.new.downs.items ≡ length self.new.names) }
        ensures graph { OnOk result ((bills : List (Name × Name))
            → IsGraph bills self.old.names (shown self.old.ups.items) (shown self.old.downs.items)
            → IsGraph (bills ++ (component, parent) ∷ []) self.new.names
            (shown self.new.ups.items) (shown self.new.downs.items)) }
    {
        let below = self.place_of(alloc, component)?;
        let above = self.place_of(alloc, parent)?;
        push_at(&mut self.ups, below, above)?;
        push_at(&mut self.downs, above, below)?;
        Ok(())
    }

    /// The graph of some bills, in which some names have the first places, in their order.
    pub fn of(alloc: Global, bills: &[(Name, Name)], first: &[Name]) -> Result<Graph, AllocError>
        ensures { IfOk result (λ graph.
            IsGraph bills.now graph.names (shown graph.ups.items) (shown graph.downs.items)) }
    {
        let mut graph = Graph::new(alloc);
        let _places = graph.places_of(alloc, first)?;
        for bill in bills {
            graph.add(alloc, bill.0, bill.1)?;
        }
        Ok(graph)
    }

    /// The places of some names, which get some where they have none.
    pub fn places_of(&mut self, alloc: Global, names: &[Name]) -> Result<Vec<usize>, AllocError>
        requires ups { length self.old.ups.items ≡ length self.old.names }
        requires downs { length self.old.downs.items ≡ length self.old.names }
        ensures stand { IfOk result (λ places. StandAt self.new.names places.items names.now) }
        ensures graph { OnOk result ((bills : List (Name × Name))
            → IsGraph bills self.old.names (shown self.old.ups.items) (shown self.old.downs.items)
            → IsGraph bills self.new.names (shown self.new.ups.items)
            (shown self.new.downs.items)) }
    {
        let mut places = Vec::new(alloc);
        for name in names {
            let place = self.place_of(alloc, *name)?;
            places.push(place)?;
        }
        Ok(places)
    }
}
