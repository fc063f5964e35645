//! Laws of graphs and of their tests.

ghost use Rattle.graph_laws.specs.Balances.{AnswersAreRight};
ghost use Rattle.graph_laws.specs.Building.{BuildingKeeps};
ghost use Rattle.graph_laws.specs.Faults.{TestsDecide};
ghost use Rattle.graph_laws.specs.Gains.{ValidGraphsFit};
ghost use Rattle.graph_laws.specs.Running.{ValidGraphsRun};
ghost use Rattle.graph_laws.specs.Short.{StreamsAreShort};
ghost use Rattle.graph_laws.specs.Tables.{TablesCompute};

/// A graph that is built by what is not refused keeps the limits, the ports that there are, one writer of each input
/// and the types.
pub fn building_keeps()
    ensures { BuildingKeeps }
{}

/// The tests of a graph answer nothing exactly where it is valid, and else what is wrong, the lowest block first.
pub fn tests_decide()
    ensures { TestsDecide }
{}

/// A valid graph of lawful blocks keeps what the laws of streams, of the machine and of rates ask of a network.
pub fn valid_graphs_run()
    ensures { ValidGraphsRun }
{}

/// The answer on rates is right: the least balance, that there is none, or that it would pass the limits.
pub fn answers_are_right()
    ensures { AnswersAreRight }
{}

/// Tables that take each block's entry from those of its writers hold the counts of firings and the products of
/// interpolations.
pub fn tables_compute()
    ensures { TablesCompute }
{}

/// A tape of 4,294,967,296 items fits any valid graph: no path makes more than 2 to the 61st of it. The longest that
/// fits by the graph's own gain has at least 2 to the 37th.
pub fn valid_graphs_fit()
    ensures { ValidGraphsFit }
{}

/// Where tapes fit a valid graph, no stream of it, no count of base firings and no place of a tag is above 2 to the
/// 62nd.
pub fn streams_are_short()
    ensures { StreamsAreShort }
{}
