// What the evaluator's steps stand on: numbers modulo m, the literals of a pool, the given values, the table of the cells written, and the answer's bytes.
#![tactic(auto)]

pub mod arithmetic;
pub mod cells;
pub mod given;
pub mod numbers;
pub mod valued;
