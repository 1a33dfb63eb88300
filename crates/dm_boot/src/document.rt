//! The top table of a boot file, with its images and processes by name.
ghost use Rattle.std.specs.Prelude.{◌≡◌, List, ℕ, IfOk, OnErr, OnOk, None, Some, if◌then◌else◌};
ghost use Rattle.std.specs.Option.{option_map, option_or};
ghost use Rattle.std.specs.Str.{bytes_eq};
ghost use Rattle.toml.specs.View.{items_view, view};
ghost use Rattle.dm_boot.specs.Named.{FindsNames, place_in};
ghost use Rattle.dm_boot.specs.Build.{image_tables, process_tables};
ghost use Rattle.dm_boot.specs.Tables.{named, element_place};

use crate::tables::{items_at, text_at};
use dm_memory::NoMemory;
use dm_memory::of_indexmap::insert;
use indexmap::IndexMap;
use std::alloc::Global;
use toml::Value;

/// The top table of a boot file. Its images and processes are found by name in a time that hardly grows with how many
/// there are.
#[derive(Drop)]
pub struct Document<'a> {
    pub top: &'a Value,
    /// The place of the first image of each name.
    images: IndexMap<&'a str, usize>,
    /// The place of the first process of each name.
    processes: IndexMap<&'a str, usize>,
    ghost finds_images: { FindsNames images (image_tables (view top.now)) },
    ghost finds_processes: { FindsNames processes (process_tables (view top.now)) },
}

impl<'a> Document<'a> {
    /// The document of a top table.
    pub fn new(alloc: Global, top: &'a Value) -> Result<Document<'a>, NoMemory>
        ensures { IfOk result (λ d. view d.top.now ≡ view top.now) }
    {
        Ok(Document {
            top,
            images: places_of(alloc, items_at(top, "image"))?,
            processes: places_of(alloc, items_at(top, "process"))?,
        })
    }

    /// The place of the first image with this name.
    pub fn image_named(&self, name: &str) -> Option<usize>
        ensures { result ≡ element_place name.now (image_tables (view self.now.top.now)) }
    {
        self.images.get(name).copied()
    }

    /// The first image with this name.
    #[tactic(auto, unfolding(crate::specs::Tables::named), using(crate::proofs::Elements::found_lemmas, crate::proofs::Elements::count_lemmas, crate::proofs::Named::named_lemmas))]
    pub fn image(&self, name: &str) -> Option<&'a Value>
        ensures { option_map (λ v. view v.now) result ≡ named name.now (image_tables (view self.now.top.now)) }
    {
        match self.image_named(name) {
            Some(place) => Some(&items_at(self.top, "image")[place]),
            None => None,
        }
    }

    /// The first process with this name.
    #[tactic(auto, unfolding(crate::specs::Tables::named), using(crate::proofs::Elements::found_lemmas, crate::proofs::Elements::count_lemmas, crate::proofs::Named::named_lemmas))]
    pub fn process(&self, name: &str) -> Option<&'a Value>
        ensures { option_map (λ v. view v.now) result ≡ named name.now (process_tables (view self.now.top.now)) }
    {
        match self.process_named(name) {
            Some(place) => Some(&items_at(self.top, "process")[place]),
            None => None,
        }
    }

    /// The place of the first process with this name.
    pub fn process_named(&self, name: &str) -> Option<usize>
        ensures { result ≡ element_place name.now (process_tables (view self.now.top.now)) }
    {
        self.processes.get(name).copied()
    }
}

/// The place of the first of these elements of each name.
fn places_of<'a>(alloc: Global, items: &'a [Value]) -> Result<IndexMap<&'a str, usize>, NoMemory>
    ensures { IfOk result (λ places. FindsNames places (items_view items.now)) }
{
    let mut places = IndexMap::new(alloc);
    for (i, item) in items.iter().enumerate() {
        set_place(&mut places, text_at(item, "name"), i)?;
    }
    Ok(places)
}

/// Sets the place of a name that has none.
fn set_place<'a>(
    places: &mut IndexMap<&'a str, usize>,
    name: &'a str,
    place: usize,
) -> Result<(), NoMemory>
    ensures ok { OnOk result ((q : List ℕ) → place_in places.new q ≡ option_or (place_in places.old q) (if bytes_eq name.now q then Some place else None)) }
    ensures err { OnErr result ((q : List ℕ) → place_in places.new q ≡ place_in places.old q) }
{
    if !places.contains_key(name) {
        insert(places, name, place)?;
    }
    Ok(())
}
