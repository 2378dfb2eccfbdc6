// Cards: read and printed, whole and damaged; made by samplers over stores that are given; and left by short nights cut at every call
// of the device, against an account kept beside them: a ledger, the records that it counts, and the sample of these by what a sample
// is. The scripts of `rack`, good and bad, are here too, since what plays nights on every stack takes the compiler minutes, and is
// compiled but once so.
#![tactic(auto)]

#[cfg(test)]
mod accounts;
#[cfg(test)]
mod cuts;
#[cfg(test)]
mod damaged;
#[cfg(test)]
mod evenings;
#[cfg(test)]
mod events;
#[cfg(test)]
mod handmade;
#[cfg(test)]
mod plays;
#[cfg(test)]
mod reformats;
#[cfg(test)]
mod same;
#[cfg(test)]
mod scripts;
#[cfg(test)]
mod sleepers;
#[cfg(test)]
mod texts;
#[cfg(test)]
mod torn;
