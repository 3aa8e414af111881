//! Tests of a crowd at one room. Eight threads publish offers of every age, and evict, while one more edits, undoes
//! and redoes, and the desk follows. Then the history of the closed desk is played once more by a machine of plain
//! lists: each answer and the last cache are as the machine has them, whatever the schedule was.
#![tactic(auto)]

// The numbers that a seed gives.
#[cfg(test)]
mod random;
// The graph and its edits, and the offers of its sums.
#[cfg(test)]
mod editing;
#[cfg(test)]
mod offers;
// The threads.
#[cfg(test)]
mod crowd;
// The machine of plain lists.
#[cfg(test)]
mod items;
#[cfg(test)]
mod machine;
#[cfg(test)]
mod tests;
