#![tactic(auto)]

// Tests of what lies at the edges of the libraries below: full and empty stores, drafts with one fault, the longest sheets.
#[cfg(test)]
mod drafts;
#[cfg(test)]
mod listings;
#[cfg(test)]
mod stores;
