//! Tests of graphs and worlds through their public functions: what no contract says, and worked
//! examples.
#![tactic(auto)]

#[cfg(test)]
mod bit_rows;
#[cfg(test)]
mod clean_builds;
#[cfg(test)]
mod graph_fixtures;
#[cfg(test)]
mod graph_orders;
#[cfg(test)]
mod graph_turns;
#[cfg(test)]
mod graphs;
#[cfg(test)]
mod needs;
#[cfg(test)]
mod plan_texts;
#[cfg(test)]
mod plans;
#[cfg(test)]
mod readiness;
#[cfg(test)]
mod searches;
#[cfg(test)]
mod written_plans;
