//! A streaming JSON reader: it skips what the caller doesn't want and builds no tree of values.
#![tactic(auto)]

pub mod laws;
mod numbers;
mod tokens;

pub use tokens::{
    MAX_DEPTH, enter_array, enter_object, next_integer, next_text, skip_value, text_from_utf8,
};
