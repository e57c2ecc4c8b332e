// Whether what a caller lends as a map is one (22): axes that keep their rules, and an entry for each point, none above the largest.
#![tactic(auto)]

ghost use Rattle.std.specs.Prelude.{◌≡◌, true, ◌≤◌, length, EachIndex, slice_index, IfOk};
ghost use Rattle.refusal.specs.Outcome.{require};
ghost use Rattle.refusal.specs.Table.{outcome_as};
ghost use Rattle.grid.specs.Map.{counted_numbers, valid_entries, valid_map};

use grid::{Grid, LARGEST_ENTRY};
use refusal::Refusal;

// A map that a caller lends, and that was tested.
#[derive(Clone, Copy)]
pub struct Map<'a> {
    pub grid: &'a Grid,
    pub entries: &'a [u32],
    pub ghost tested: { valid_map grid.now entries.now ≡ true },
}

// The largest of the entries, 0 where there are none. (Both halves are gone over at once, which is quicker; the middle one of an odd
// count stands in both.)
fn largest(entries: &[u32]) -> u32
    ensures at_least { EachIndex entries.now (λ k. slice_index entries.now k ≤ result) }
    ensures within { EachIndex entries.now (λ k. slice_index entries.now k ≤ 10000000) → result ≤ 10000000 }
{
    let half = entries.len() / 2;
    let rest = entries.len() - half;
    let mut all = 0;
    for (first, second) in entries[..rest].iter().zip(&entries[half..]) {
        all = all.max((*first).max(*second));
    }
    all
}

// Whether there are count entries, and none of the first count above the largest. The count is the points of a map, and
// that as many are lent is what is tested here.
pub fn entries_valid(entries: &[u32], count: usize) -> bool
    ensures { result ≡ valid_entries entries.now count }
{
    let Some(entries) = entries.get(..count) else {
        return false;
    };
    largest(entries) <= LARGEST_ENTRY
}

// Whether what is lent is a map. (Grid and entries are what a caller lends; `Map` is what passed.)
#[tactic(auto, unfolding(grid::specs::Map::valid_map))]
pub fn map_valid(grid: &Grid, entries: &[u32]) -> bool
    ensures { result ≡ valid_map grid.now entries.now }
{
    grid::grid_valid(grid) && entries_valid(entries, grid.points())
}

#[tactic(auto, using(grid::proofs::Map::map_facts))]
impl Map<'_> {
    // Its speeds in rpm.
    pub fn speeds(&self) -> &[u16]
        ensures numbers { result.now ≡ counted_numbers self.now.grid.now.speeds }
        ensures long { length result.now ≡ self.now.grid.now.speeds.count }
    {
        self.grid.speeds.counted_numbers()
    }

    // Its torques in Nm.
    pub fn torques(&self) -> &[u16]
        ensures numbers { result.now ≡ counted_numbers self.now.grid.now.torques }
        ensures long { length result.now ≡ self.now.grid.now.torques.count }
    {
        self.grid.torques.counted_numbers()
    }
}

// The map that is lent, or 22: what was lent as two is one from here on. (Inlined, so that no map goes through memory: a question
// to a small map takes a tenth less.)
#[inline(always)]
pub fn tested_map<'a>(grid: &'a Grid, entries: &'a [u32]) -> Result<Map<'a>, Refusal>
    ensures answer { outcome_as (λ map. tt) result ≡ require (valid_map grid.now entries.now) 22 0 }
    ensures same { IfOk result (λ map. (map.grid.now ≡ grid.now) × (map.entries.now ≡ entries.now)) }
{
    if map_valid(grid, entries) {
        Ok(Map { grid, entries })
    } else {
        Err(Refusal::NotAMap)
    }
}
