//! Tests of the router, where no contract says what it does.
#![tactic(auto)]

#[cfg(test)]
mod routes;
