// Tests of the lower layers: numbers and sizes, the ascending table, drafts and closed batches.
#![tactic(auto)]

#[cfg(test)]
mod drafts;
#[cfg(test)]
mod ranges;
#[cfg(test)]
mod tables;
