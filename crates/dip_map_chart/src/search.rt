//! A search by levels: who has a neighbour at the last level is at the next, until nobody is.
ghost use Rattle.std.specs.Prelude.{◌≡◌, ◌<◌, ◌==◌, length, IfOk};
ghost use Rattle.std.specs.List.{list_any};
ghost use Rattle.dip_map_chart.specs.Walk.{rows_of, at, AreLeast};
ghost use Rattle.dip_map_chart.specs.Levels.{is_reached, sweep_from, is_quiet, levels_at_start};

use std::alloc::{AllocError, Global};

/// What stands for a distance where no walk leads to a home.
const FAR: u16 = 1000;

/// The distance of a vertex, 1,000 for one that isn't there.
pub fn distance_at(distances: &[u16], vertex: usize) -> u16
    ensures { result ≡ at distances.now vertex }
{
    match distances.get(vertex) {
        Some(distance) => *distance,
        None => FAR,
    }
}

/// Whether one of these neighbours is at the level.
fn touches(distances: &[u16], level: u16, row: &[usize]) -> bool
    ensures { result ≡ list_any (λ c. at distances.now c == level) row.now }
{
    row.iter()
        .any(|vertex| distance_at(distances, *vertex) == level)
}

/// Whether a vertex of this distance and these neighbours is at the next level.
fn is_reached(distances: &[u16], level: u16, distance: u16, row: &[usize]) -> bool
    ensures { result ≡ is_reached distances.now level distance row.now }
{
    distance == FAR && touches(distances, level, row)
}

/// The distances with those of one more level.
fn sweep(
    alloc: Global,
    graph: &[Vec<usize>],
    distances: &[u16],
    level: u16,
) -> Result<Vec<u16>, AllocError>
    requires { level < 1000 }
    ensures { IfOk result (λ v. v.items ≡ sweep_from distances.now level 0 (rows_of graph.now)) }
{
    let mut next = Vec::new(alloc);
    for (vertex, row) in graph.iter().enumerate() {
        let distance = distance_at(distances, vertex);
        if is_reached(distances, level, distance, row.as_slice()) {
            next.push(level + 1)?;
        } else {
            next.push(distance)?;
        }
    }
    Ok(next)
}

/// Whether no vertex is at the next level.
fn is_quiet(graph: &[Vec<usize>], distances: &[u16], level: u16) -> bool
    ensures { result ≡ is_quiet distances.now level 0 (rows_of graph.now) }
{
    for (vertex, row) in graph.iter().enumerate() {
        if is_reached(
            distances,
            level,
            distance_at(distances, vertex),
            row.as_slice(),
        ) {
            return false;
        }
    }
    true
}

/// The distances of the homes alone.
fn start(alloc: Global, homes: &[bool]) -> Result<Vec<u16>, AllocError>
    ensures { IfOk result (λ v. v.items ≡ levels_at_start homes.now) }
{
    let mut distances = Vec::new(alloc);
    for home in homes {
        distances.push(if *home { 0 } else { FAR })?;
    }
    Ok(distances)
}

/// The least numbers of steps from each vertex to a home, 1,000 where no walk leads to one.
///
/// The graph is a list of neighbours for each vertex; a neighbour that isn't there leads nowhere.
pub fn least_distances(
    alloc: Global,
    graph: &[Vec<usize>],
    homes: &[bool],
) -> Result<Vec<u16>, AllocError>
    requires few { length graph.now < 999 }
    requires same { length homes.now ≡ length graph.now }
    ensures { IfOk result (λ v. AreLeast (rows_of graph.now) homes.now v.items) }
{
    let mut distances = start(alloc, homes)?;
    let mut level = 0;
    'levels: while !is_quiet(graph, distances.as_slice(), level) {
        distances = sweep(alloc, graph, distances.as_slice(), level)?;
        level += 1;
    }
    Ok(distances)
}
