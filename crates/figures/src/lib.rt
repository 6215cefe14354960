// The worked figures of the documents, proved; and tests at the edges of models and slices.
#![tactic(auto)]

#[cfg(test)]
mod edges;
pub mod packed_files;
pub mod paired_files;
pub mod refusal_table;
