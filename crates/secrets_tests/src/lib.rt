// Tests of the secrets by public examples.
#![tactic(auto)]

#[cfg(test)]
mod bolt3;
