//! Tests of the libraries: what no contract says (that a call succeeds where memory suffices, that readers and writers alone make it
//! fail, what threads do), and calls on worked examples. The tests named `without_memory` hold where any one request for memory is
//! refused too: the gate refuses each in turn. What the program makes of scripts, dumps and logs is compared apart, by tables.
#![tactic(auto)]

#[cfg(test)]
mod audits;
#[cfg(test)]
mod configurations;
#[cfg(test)]
mod group;
#[cfg(test)]
mod members;
#[cfg(test)]
mod records;
#[cfg(test)]
mod streams;
#[cfg(test)]
mod tables;
#[cfg(test)]
mod texts;
#[cfg(test)]
mod unsteady;
#[cfg(test)]
mod workers;
