// Tests by names of nodes that no record has: those longer than a record's, by whichever spans, and paths between them.
#![tactic(auto)]

#[cfg(test)]
mod paths;
#[cfg(test)]
mod spans;
