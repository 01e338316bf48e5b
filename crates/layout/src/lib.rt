// From units to the table of pieces: document 01, "From allocation to table", for any units that fit.
#![tactic(auto)]

mod before;
mod laying;
mod pieces;
mod walking;

ghost use Rattle.layout.specs.Laid.{LayAnswer};

use fitting::units_fit;
use grid::Grid;
use laying::lay_all;

// The units stand in a flat list, sixteen numbers a task, and the table has four numbers a piece. The number of pieces that now stand at the
// front of the table, and what lies beyond keeps what it held; or None where the units do not fit, and the table keeps what it held.
pub fn lay_out(
    frame: u32,
    tasks: usize,
    cores: usize,
    units: &[u32; 1024],
    table: &mut [u32],
) -> Option<usize>
    ensures { LayAnswer frame tasks cores units.now table.old result table.new }
{
    let grid = Grid::new(units, tasks, cores)?;
    if !units_fit(frame, tasks, cores, units, table.len() / 4) {
        return None;
    }
    Some(lay_all(frame, grid, table))
}
