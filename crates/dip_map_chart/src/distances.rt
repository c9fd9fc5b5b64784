//! The distances to home centres, worked out once for each kind of unit and each power.
ghost use Rattle.std.specs.Prelude.{◌≡◌, ◌<◌, ◌≤◌, ◌++◌, length, map, IfOk};
ghost use Rattle.std.specs.List.{flat_map};
ghost use Rattle.dip_map_chart.specs.Walk.{rows_of};
ghost use Rattle.dip_map_chart.specs.Charts.{IsMap, fleet_next};
ghost use Rattle.dip_names.specs.declared.names.Kind.TheVariants.{Fleet};
ghost use Rattle.dip_map_chart.specs.Walks.{ways};
ghost use Rattle.dip_map_chart.specs.Charts.{is_home};
ghost use Rattle.dip_map_chart.specs.Distances.{vertex, place_at, is_haven, vertices, row, is_home_at, graph, homes, AreTables, noted_at, distance_in, AreDistances};

use crate::parts::Parts;
use crate::search::{distance_at, least_distances};
use dip_names::{Kind, Place, Power, Prov};
use std::alloc::{AllocError, Global};
use std::marker::Model;

/// What stands for a distance where no walk leads to a home centre.
const FAR: u16 = 1000;

/// The distances to each power's home centres, by provinces for armies and by places for fleets.
#[derive(Drop)]
pub struct Distances {
    armies: Vec<Vec<u16>>,
    fleets: Vec<Vec<u16>>,
}

impl Model for Distances {
    ghost use Rattle.dip_map_chart.specs.Walk.{rows_of};
    ghost use Rattle.dip_map_chart.specs.Distances.{Tables};

    ghost Value = { Tables };

    ghost view = { λ d. record { armies = rows_of d.armies.items; fleets = rows_of d.fleets.items } };
}

impl Distances {
    /// The distances on a map.
    pub fn of(alloc: Global, parts: &Parts) -> Result<Distances, AllocError>
        requires { IsMap parts.now }
        ensures { IfOk result (λ d. AreDistances parts.now d) }
    {
        let armies = tables_of(alloc, parts, Kind::Army)?;
        let fleets = tables_of(alloc, parts, Kind::Fleet)?;
        Ok(Distances { armies, fleets })
    }

    /// The distance from a place to the nearest home centre of a power, for a unit of this kind. It
    /// decides who is removed in disorder.
    pub fn distance(&self, kind: Kind, place: Place, power: Power) -> u16
        ensures { result ≡ distance_in self.now kind place power }
    {
        match kind {
            Kind::Army => noted_at(self.armies.as_slice(), power, place.prov.index() as usize),
            Kind::Fleet => self.noted_of_fleets(place, power),
        }
    }

    /// How far a fleet at the place is from the home centres of the power.
    fn noted_of_fleets(&self, place: Place, power: Power) -> u16
        ensures { result ≡ distance_in self.now Fleet place power }
    {
        if place.coast < 4 {
            noted_at(self.fleets.as_slice(), power, vertex(place))
        } else {
            FAR
        }
    }
}

/// What a power's table has for a vertex.
fn noted_at(tables: &[Vec<u16>], power: Power, vertex: usize) -> u16
    ensures { result ≡ noted_at (rows_of tables.now) power vertex }
{
    match tables.get(power.index() as usize) {
        Some(table) => distance_at(table.as_slice(), vertex),
        None => FAR,
    }
}

/// The vertex of a place in the graph of fleets, which has four for each province.
fn vertex(place: Place) -> usize
    ensures { result ≡ vertex place }
{
    (place.prov.index() as usize) * 4 + place.coast as usize
}

/// The place of a vertex in the graph of fleets.
fn place_at(vertex: usize) -> Place
    requires { vertex < 1000 }
    ensures { result ≡ place_at vertex }
{
    Place {
        prov: Prov::new((vertex / 4) as u8),
        coast: (vertex % 4) as u8,
    }
}

/// Appends the numbers of these provinces.
fn push_provinces(row: &mut Vec<usize>, provinces: &[Prov]) -> Result<(), AllocError>
    ensures { IfOk result (λ _. row.new.items ≡ row.old.items ++ provinces.now) }
{
    for p in provinces {
        row.push(p.index() as usize)?;
    }
    Ok(())
}

/// Appends the numbers of the provinces of these places.
fn push_provinces_of(row: &mut Vec<usize>, places: &[Place]) -> Result<(), AllocError>
    ensures { IfOk result (λ _. row.new.items ≡ row.old.items ++ map (λ b. b.prov) places.now) }
{
    for place in places {
        row.push(place.prov.index() as usize)?;
    }
    Ok(())
}

/// Where an army's way may go on from a province: to neighbours of either kind.
fn ways(alloc: Global, parts: &Parts, p: Prov) -> Result<Vec<usize>, AllocError>
    ensures { IfOk result (λ v. v.items ≡ ways parts.now p) }
{
    let mut row = Vec::new(alloc);
    push_provinces(&mut row, parts.army_next(p))?;
    for shore in parts.shores(p) {
        push_provinces_of(&mut row, shore.next.as_slice())?;
    }
    Ok(row)
}

/// Where a fleet's way may go on from a place.
fn ways_by_sea(alloc: Global, parts: &Parts, a: Place) -> Result<Vec<usize>, AllocError>
    ensures { IfOk result (λ v. v.items ≡ map (λ b. vertex b) (fleet_next parts.now a)) }
{
    let mut row = Vec::new(alloc);
    for b in parts.fleet_next(a) {
        row.push(vertex(*b))?;
    }
    Ok(row)
}

/// Whether a fleet at the place is in a home centre of the power.
fn is_haven(parts: &Parts, power: Power, a: Place) -> bool
    ensures { result ≡ is_haven parts.now power a }
{
    let prov = a.prov;
    parts.is_fleet_place(a) && parts.is_home(power, prov)
}

/// How many vertices the graph of a kind of unit has: the provinces, or four for each.
fn vertices(parts: &Parts, kind: Kind) -> usize
    requires { length parts.now.provinces ≤ 200 }
    ensures { result ≡ vertices parts.now kind }
{
    match kind {
        Kind::Army => parts.provinces.len(),
        Kind::Fleet => parts.provinces.len() * 4,
    }
}

/// The vertices next to one, for a kind of unit.
fn row_of(alloc: Global, parts: &Parts, kind: Kind, vertex: usize) -> Result<Vec<usize>, AllocError>
    requires few { length parts.now.provinces ≤ 200 }
    requires within { vertex < vertices parts.now kind }
    ensures { IfOk result (λ v. v.items ≡ row parts.now kind vertex) }
{
    match kind {
        Kind::Army => ways(alloc, parts, Prov::new(vertex as u8)),
        Kind::Fleet => ways_by_sea(alloc, parts, place_at(vertex)),
    }
}

/// Whether a vertex is in a home centre of the power.
fn is_home_at(parts: &Parts, kind: Kind, power: Power, vertex: usize) -> bool
    requires few { length parts.now.provinces ≤ 200 }
    requires within { vertex < vertices parts.now kind }
    ensures { result ≡ is_home_at parts.now kind power vertex }
{
    match kind {
        Kind::Army => parts.is_home(power, Prov::new(vertex as u8)),
        Kind::Fleet => is_haven(parts, power, place_at(vertex)),
    }
}

/// The graph of a kind of unit: for each vertex those next to it.
fn graph_of(alloc: Global, parts: &Parts, kind: Kind) -> Result<Vec<Vec<usize>>, AllocError>
    requires { length parts.now.provinces ≤ 200 }
    ensures { IfOk result (λ v. rows_of v.items ≡ graph parts.now kind) }
{
    let mut graph = Vec::new(alloc);
    for vertex in 0..vertices(parts, kind) {
        let row = row_of(alloc, parts, kind, vertex)?;
        graph.push(row)?;
    }
    Ok(graph)
}

/// For each vertex whether it is in a home centre of the power.
fn homes_of(alloc: Global, parts: &Parts, kind: Kind, power: Power) -> Result<Vec<bool>, AllocError>
    requires { length parts.now.provinces ≤ 200 }
    ensures { IfOk result (λ v. v.items ≡ homes parts.now kind power) }
{
    let mut homes = Vec::new(alloc);
    for vertex in 0..vertices(parts, kind) {
        homes.push(is_home_at(parts, kind, power, vertex))?;
    }
    Ok(homes)
}

/// For each power how far each vertex is from its home centres.
fn tables_of(alloc: Global, parts: &Parts, kind: Kind) -> Result<Vec<Vec<u16>>, AllocError>
    requires { IsMap parts.now }
    ensures { IfOk result
        (λ v. AreTables parts.now kind (length parts.now.realms) (rows_of v.items)) }
{
    let graph = graph_of(alloc, parts, kind)?;
    let mut tables = Vec::new(alloc);
    for number in 0..parts.realms.len() {
        let homes = homes_of(alloc, parts, kind, Power::new(number as u8))?;
        let table = least_distances(alloc, graph.as_slice(), homes.as_slice())?;
        tables.push(table)?;
    }
    Ok(tables)
}
