//! Tests of `uses`: each example once, on octets written out by hand from the standard's layouts
//! (CDR 9.3 and GIOP 9.4).
#![tactic(auto)]

#[cfg(test)]
mod accounts;
#[cfg(test)]
mod arguments;
#[cfg(test)]
mod bank;
#[cfg(test)]
mod banking;
#[cfg(test)]
mod capture;
#[cfg(test)]
mod cutting;
#[cfg(test)]
mod durable;
#[cfg(test)]
mod endpoint;
#[cfg(test)]
mod handing;
#[cfg(test)]
mod hearing;
#[cfg(test)]
mod invocation;
#[cfg(test)]
mod keeping;
#[cfg(test)]
mod later;
#[cfg(test)]
mod ledger;
#[cfg(test)]
mod life;
#[cfg(test)]
mod locating;
#[cfg(test)]
mod octets;
#[cfg(test)]
mod pieces;
#[cfg(test)]
mod relayed;
#[cfg(test)]
mod relaying;
#[cfg(test)]
mod retrying;
#[cfg(test)]
mod saving;
#[cfg(test)]
mod securing;
#[cfg(test)]
mod serving;
