//! What the banks have counted behind a command, which no command prints. There is nothing here but tests.
#![tactic(auto)]

#[cfg(test)]
mod commands;
