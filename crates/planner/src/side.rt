// The graph of units, seen from one of its two sides: from the tasks, each with units towards cores, or from the cores.
ghost use Rattle.std.specs.Prelude.{◌≡◌, ℕ, ◌+◌, ◌*◌, ◌≤◌, ◌<◌, cond};
ghost use Rattle.rules.specs.Sum.{positive};
ghost use Rattle.stretches.specs.Cell.{cell};
ghost use Rattle.forest.specs.Stripping.{there, links};

use grid::Grid;
use sets::Set;

// What vertex i of this side has towards vertex k of the other one stands at place `i * step + k * across` of the units.
#[derive(Clone, Copy)]
pub(crate) struct Side<'a> {
    pub(crate) units: &'a [u32; 1024],
    pub(crate) count: usize,
    pub(crate) others: usize,
    pub(crate) step: usize,
    pub(crate) across: usize,
    ghost inside: { (i k : ℕ) → i < count → k < others → i * step + k * across < 1024 },
}

impl<'a> Side<'a> {
    ghost use Rattle.planner.specs.Sides.{seen, OtherThan};
    ghost use Rattle.planner.specs.Loose.{FirstLoose};

    // Tasks stand sixteen places apart, and a task's cores side by side.
    pub(crate) fn tasks(grid: Grid<'a>) -> Side<'a>
        ensures few { (result.count ≡ grid.entry.tasks) × (result.others ≡ grid.entry.cores) }
        ensures same { seen result ≡ cell grid.entry.units.now }
    {
        Side {
            units: grid.units,
            count: grid.tasks,
            others: grid.cores,
            step: 16,
            across: 1,
        }
    }

    // The other way round.
    pub(crate) fn cores(grid: Grid<'a>) -> Side<'a>
        ensures few { (result.count ≡ grid.entry.cores) × (result.others ≡ grid.entry.tasks) }
        ensures same { seen result ≡ (λ j i. cell grid.entry.units.now i j) }
    {
        Side {
            units: grid.units,
            count: grid.cores,
            others: grid.tasks,
            step: 1,
            across: 16,
        }
    }

    // The units between two vertices. Each method asks that its vertex is one of this side, as an index is asked: a type for it would be
    // unpacked at each use.
    fn between(self, vertex: usize, other: usize) -> u32
        requires { (vertex < self.count) × (other < self.others) }
        ensures { result ≡ seen self.entry vertex other }
    {
        self.units[vertex * self.step + other * self.across]
    }

    // Whether a vertex of the other side is still there and has units with the vertex.
    fn linked<S: Set>(self, vertex: usize, other: usize, gone: S) -> bool
        requires { (vertex < self.count) × (other < self.others) }
        ensures { cond result 1 0 ≡ there (S.bits gone) other * positive (seen self.entry vertex other) }
    {
        !gone.has(other) && 0 < self.between(vertex, other)
    }

    // How many vertices of the other side are linked with the vertex.
    fn links<S: Set>(self, vertex: usize, gone: S) -> usize
        requires { vertex < self.count }
        ensures { result ≡ links self.entry.others (S.bits gone) (seen self.entry) vertex }
    {
        let mut count = 0;
        for k in 0..self.others {
            count += usize::from(self.linked(vertex, k, gone));
        }
        count
    }

    // The lowest vertex that is still there and has at most one link.
    pub(crate) fn loose<S: Set, T: Set>(self, gone: S, others_gone: T) -> Option<usize>
        ensures { FirstLoose self.entry.count (S.bits gone) (links self.entry.others (T.bits others_gone) (seen self.entry)) result }
    {
        for i in 0..self.count {
            if !gone.has(i) && self.links(i, others_gone) < 2 {
                return Some(i);
            }
        }
        None
    }

    // Another neighbour of the vertex than the one we came from.
    pub(crate) fn other<S: Set>(self, vertex: usize, gone: S, from: Option<usize>) -> usize
        requires { (vertex < self.count) × (2 ≤ links self.others (S.bits gone) (seen self) vertex) }
        ensures { OtherThan from self.entry.others (S.bits gone) (seen self.entry vertex) result }
    {
        for k in 0..self.others {
            if self.linked(vertex, k, gone) && from != Some(k) {
                return k;
            }
        }
        unreachable!()
    }
}
