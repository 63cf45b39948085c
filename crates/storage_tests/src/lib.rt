//! Tests of the row store, the column units and the scan of both, through what their crates give to others.
#![tactic(auto)]

#[cfg(test)]
mod blocks;
#[cfg(test)]
mod builds;
#[cfg(test)]
mod columns;
#[cfg(test)]
mod scans;
#[cfg(test)]
mod units;
