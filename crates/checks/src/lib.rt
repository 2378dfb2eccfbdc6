// Examples that are run: published draws, rounding, how refusals and nights read, scripts of store calls good and bad, and stores
// over memory that is given.
#![tactic(auto)]

#[cfg(test)]
mod draws;
#[cfg(test)]
mod heldwrites;
#[cfg(test)]
mod looking;
#[cfg(test)]
mod memories;
#[cfg(test)]
mod nightlines;
#[cfg(test)]
mod refusals;
#[cfg(test)]
mod rounding;
#[cfg(test)]
mod storeplays;
#[cfg(test)]
mod storerefusals;
#[cfg(test)]
mod storescripts;
#[cfg(test)]
mod torncopies;
