// Checks of the hub's calls on examples worked out by hand from docs/hub.md and docs/refusals.md.
#![tactic(auto)]

#[cfg(test)]
mod lists;
#[cfg(test)]
mod making;
#[cfg(test)]
mod replays;
#[cfg(test)]
mod reports;
#[cfg(test)]
mod stand;
#[cfg(test)]
mod steps;
