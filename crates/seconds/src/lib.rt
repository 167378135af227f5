// Second systems: what agrees with what is known of a plant, the free part behind its closed states, and the three verdicts.
// Mathematics: each function carries one theorem. Relies on formula, meaning and tableau.
#![tactic(auto)]

ghost use Rattle.seconds.specs.Samples.{Nine};
ghost use Rattle.seconds.specs.Claims.{Letters, Tests, FreeEdges, FreePart, FreeNumbers, SecondPart, FirstIsSecond};
ghost use Rattle.seconds.specs.Claims.{BrokenInAll, DoubtParts, HoldsElse, ExactlyOne, BrokenNumbers, SpoiledNumbers, SearchesDecide};

// Which atoms are possible behind a closed state, in words.
pub fn possible_atoms_in_words() -> bool
    ensures { Letters }
{
    true
}

// Tests of bits decide which atoms are possible.
pub fn tests_decide_possible_atoms() -> bool
    ensures { Tests }
{
    true
}

// Tests of bits decide the edges of the free part.
pub fn tests_decide_free_edges() -> bool
    ensures { FreeEdges }
{
    true
}

// An atom is kept exactly where a free lasso goes out from it.
pub fn kept_atoms_continue() -> bool
    ensures { FreePart }
{
    true
}

// The free part is a graph of numbers.
pub fn kept_atoms_by_numbers() -> bool
    ensures { FreeNumbers }
{
    true
}

// A closed state is spoiled exactly where the open part and the free part meet there.
pub fn second_systems_by_graphs() -> bool
    ensures { SecondPart }
{
    true
}

// A plant's own system is one of its second systems.
pub fn first_system_is_second() -> bool
    ensures { FirstIsSecond }
{
    true
}

// A violating run over open states alone is one of every second system.
pub fn broken_in_every_second_system() -> bool
    ensures { BrokenInAll }
{
    true
}

// Some second system has a violating run exactly where the formula is broken or some closed state is spoiled.
pub fn doubt_is_broken_or_spoiled() -> bool
    ensures { DoubtParts }
{
    true
}

// Where a formula is not broken and nothing is spoiled, every run of every second system satisfies it.
pub fn else_it_holds() -> bool
    ensures { HoldsElse }
{
    true
}

// Exactly one of the three verdicts is right.
pub fn exactly_one_verdict_is_right() -> bool
    ensures { ExactlyOne }
{
    true
}

// A formula is broken exactly where the open part's graph of numbers has a lasso from a start.
pub fn broken_by_numbers() -> bool
    ensures { BrokenNumbers }
{
    true
}

// A closed state is spoiled exactly where the two graphs of numbers meet there.
pub fn spoiled_by_numbers() -> bool
    ensures { SpoiledNumbers }
{
    true
}

// The answers of two graph searches give a right verdict.
pub fn two_searches_decide() -> bool
    ensures { SearchesDecide }
{
    true
}

// Nine verdicts on two plants.
pub fn sample_verdicts_are_right() -> bool
    ensures { Nine }
{
    true
}
