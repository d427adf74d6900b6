// Runs of steps on a plain host, and checks of tables that are not lawful.
#![tactic(auto)]

#[cfg(test)]
mod tests;
