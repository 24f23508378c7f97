// What the pool's tables hold: dataset rows, dead records and free ranges, each with the key that its table is
// ordered by. Proved of each kind of key: its order is total (exactly one of below, same and above holds of two
// keys) and transitive, and `cmp` answers by it; of each kind of record: which key it has. Of dead records also: those
// of a dataset are a run of their table, a list, and keep their order when they move to another dataset.
#![tactic(auto)]

pub mod dead;
pub mod ranges;
pub mod rows;
#[cfg(test)]
mod tests;
