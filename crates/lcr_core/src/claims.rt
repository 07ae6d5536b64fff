// Theorems on the ring's table and cells, each a function with an empty body, so that the gate
// counts it.
ghost use Rattle.lcr_core.specs.Claims.{TableRows, CellsRound, EveryVersion};

// Rows of the table: where each starts and how long it is, for every version.
pub fn table_rows()
    ensures { TableRows }
{}

// Outer and inner cells of every version and their positions.
pub fn cells_round()
    ensures { CellsRound }
{}

// `first` and `after` go through every version once, smallest first.
pub fn every_version()
    ensures { EveryVersion }
{}
