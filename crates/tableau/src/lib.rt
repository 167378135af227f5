// Atoms along paths, lassos of them, and the open part as a graph. Mathematics: each function carries one theorem. Relies on formula and meaning.
#![tactic(auto)]

ghost use Rattle.tableau.specs.Claims.{Coherence, Existence, Reverse, Backward, OneEnd, Coded, OneCode, RunPart, OpenPart, ReadOff, OpenNumbers, NumbersRun};

// What atoms along a path make of a formula is its truth there.
pub fn atoms_tell_the_truth() -> bool
    ensures { Coherence }
{
    true
}

// The truths along a run are atoms along its path.
pub fn every_run_has_atoms() -> bool
    ensures { Existence }
{
    true
}

// The step backward along an arc is determined.
pub fn atom_before_is_determined() -> bool
    ensures { Reverse }
{
    true
}

// It is computed from the state, the event and the atom that follows.
pub fn atom_before_is_computed() -> bool
    ensures { Backward }
{
    true
}

// A state has one atom at which nothing is taken.
pub fn atom_at_an_end_is_computed() -> bool
    ensures { OneEnd }
{
    true
}

// Every atom has a number below 2 ^ width.
pub fn every_atom_has_a_number() -> bool
    ensures { Coded }
{
    true
}

// Numbers below 2 ^ width of one atom are equal.
pub fn numbers_of_atoms_differ() -> bool
    ensures { OneCode }
{
    true
}

// A run violates a formula exactly where it has a lasso of atoms, one at each of its places.
pub fn violating_run_is_a_lasso() -> bool
    ensures { RunPart }
{
    true
}

// Some run over open states alone violates a formula exactly where a start of the open part leads to a deadlock or to a fair round.
pub fn open_part_decides() -> bool
    ensures { OpenPart }
{
    true
}

// From a lasso of nodes of the open part the violating run is read off, place by place.
pub fn lasso_of_nodes_is_a_run() -> bool
    ensures { ReadOff }
{
    true
}

// The open part is a graph of numbers, whose edges are computed backward.
pub fn open_part_by_numbers() -> bool
    ensures { OpenNumbers }
{
    true
}

// A run with a lasso of numbers at its places, which begins at a start, is a violating run over open states alone.
pub fn lasso_of_numbers_is_a_run() -> bool
    ensures { NumbersRun }
{
    true
}
