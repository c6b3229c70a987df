//! A server of tiles, from its files to its last link.
//!
//! Promises: `run_server` opens the cache of its disk under the catalogue that it read, and serves the links of its listener over it, as
//! server_workers says, with the recipes that their file says on that catalogue (`specs/Recipes.antt`); each other end has its cause
//! (`specs/Served.antt`).
//! Stands on server_workers, durable_cabinet and command_setup, on layer_recipes for the recipes, on command_status for how it ends, and on
//! the crates whose types its calls name.
#![tactic(auto)]

mod ends;
mod recipes;
mod server;
mod setup;

pub use ends::{ServerEnd, end_of_recipes};
pub use recipes::{RECIPES_LIMIT, UnreadRecipes, read_recipes};
pub use server::run_server;
