//! Tests of streams, the counts of tables and queues, the mail, logs, runners, the pool, sessions and stations, the
//! checker, and the calls that run a script on threads, by the word `run` or on live sessions: a crate apart, so that
//! none is proved again for its tests.
#![tactic(auto)]

#[cfg(test)]
mod apart;
#[cfg(test)]
mod checker;
#[cfg(test)]
mod counted;
#[cfg(test)]
mod faults;
#[cfg(test)]
mod gates;
#[cfg(test)]
mod live;
#[cfg(test)]
mod log;
#[cfg(test)]
mod mail;
#[cfg(test)]
mod meeting;
#[cfg(test)]
mod order;
#[cfg(test)]
mod pool;
#[cfg(test)]
mod runner;
#[cfg(test)]
mod running;
#[cfg(test)]
mod streams;
#[cfg(test)]
mod telling;
#[cfg(test)]
mod threads;
#[cfg(test)]
mod together;
#[cfg(test)]
mod visits;
