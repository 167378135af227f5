// The parts of a rule plant, and the model that they make. Mathematics and two plain structs, no code. Relies on meaning and plant.
#![tactic(auto)]

// A rule: what it needs of each variable, and what it sets. There are at most 8 variables, and past the last of them nothing
// counts: two vectors in each rule made the reading of a plant take twice the time.
#[derive(Clone, Copy, Debug, PartialEq, Eq)]
pub struct Rule {
    // the value that each variable has to have; `None` is any value
    pub needs: [Option<u8>; 8],
    // the value that each variable gets; `None` leaves it as it is
    pub sets: [Option<u8>; 8],
}

// What was read: variables with sizes, and rules that need and set their values.
#[derive(Drop)]
pub struct Parts {
    // how many values each variable has
    pub sizes: Vec<u8>,
    pub rules: Vec<Rule>,
}
