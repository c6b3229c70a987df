//! Tests of composites of two parts: over a hall, where truncations of another pass come before and between the parts, and where the
//! source fails at a part; the same faults in a cabinet in which no render runs elsewhere; and over a connection, at a server that has
//! recipes.
//!
//! It has no code of its own and promises nothing: what the crates promise is proved in each of them.
//! Stands on hall_sessions, composite_hall, composite_layers, layer_recipes and cache_hall, and on the crates of what they are called with.
#![tactic(auto)]

#[cfg(test)]
mod calls;
#[cfg(test)]
mod cutting;
#[cfg(test)]
mod faults;
#[cfg(test)]
mod newness;
#[cfg(test)]
mod plain_faults;
#[cfg(test)]
mod rows;
#[cfg(test)]
mod served;
#[cfg(test)]
mod stand;
