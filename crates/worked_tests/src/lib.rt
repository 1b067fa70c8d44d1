//! The tests that need threads, a socket, or an object of their own. Everything else that is worked out by
//! hand is in the rows of `worked_rows`.
#![tactic(auto)]

#[cfg(test)]
mod board;
#[cfg(test)]
mod building;
#[cfg(test)]
mod captures;
#[cfg(test)]
mod chooser;
#[cfg(test)]
mod crew;
#[cfg(test)]
mod ended;
#[cfg(test)]
mod form;
#[cfg(test)]
mod jobs;
#[cfg(test)]
mod machine;
#[cfg(test)]
mod paced;
#[cfg(test)]
mod ports;
#[cfg(test)]
mod ring;
#[cfg(test)]
mod stress;
#[cfg(test)]
mod tally;
#[cfg(test)]
mod told;
#[cfg(test)]
mod udp;
#[cfg(test)]
mod watched;
