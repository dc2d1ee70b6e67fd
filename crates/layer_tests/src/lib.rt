// Examples of the layers below the node.
#![tactic(auto)]

#[cfg(test)]
mod commands_tests;
#[cfg(test)]
mod desk_tests;
#[cfg(test)]
mod locks_tests;
#[cfg(test)]
mod messages_tests;
#[cfg(test)]
mod money_tests;
#[cfg(test)]
mod refusals_tests;
