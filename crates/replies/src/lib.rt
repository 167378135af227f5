// What a console keeps of the calls so far, and what it replies to a line of a script. Which words it knows is the
// program's to say. Relies on script, printing, and whatever the calls make: formula, text, table, rule, kinds.
#![tactic(auto)]

pub mod asking;
pub mod help;
pub mod lines;
pub mod making;
pub mod state;
