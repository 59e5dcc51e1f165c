// What holds of segment lists, of their precedence and of best paths, for every tariff unless one is named.
ghost use Rattle.segments.specs.Algebra.{algebra};
ghost use Rattle.segments.specs.Theorems.{ListsFunctional, PrecedenceStrict, FirstUnique, FiguresWherePaths, NodeCodesWherePaths, BestPathsShort, CostsBounded};

use tariff::Tariff;

// A list has one end and one set of figures.
pub fn lists_are_functional<V: Tariff>()
    ensures { ListsFunctional (algebra V.good V.joining) }
{}

// Precedence is a strict order, total on lists that differ.
pub fn precedence_is_strict<V: Tariff>()
    ensures { PrecedenceStrict (algebra V.good V.joining) }
{}

// At most one list within an order precedes every other.
pub fn first_list_is_unique<V: Tariff>()
    ensures { FirstUnique (algebra V.good V.joining) }
{}

// The figures of a node code exist exactly where a path does.
pub fn figures_are_where_paths_are<V: Tariff>()
    ensures { FiguresWherePaths (algebra V.good V.joining) }
{}

// A node code is legal at every other node from which there is a path, and nowhere else.
pub fn node_codes_are_where_paths_are<V: Tariff>()
    ensures { NodeCodesWherePaths (algebra V.good V.joining) }
{}

// A best path has fewer links than the network has nodes.
pub fn best_paths_are_short()
    ensures { BestPathsShort }
{}

// Under the cost tariff no list of at most 10 entries costs more than 41,287,050.
pub fn list_costs_are_bounded()
    ensures { CostsBounded }
{}
