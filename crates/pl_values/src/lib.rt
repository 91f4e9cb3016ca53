//! What the steps of a plate make of it, and its G-code: definitions, and laws of them.
#![tactic(auto)]

mod laws;

pub use laws::{
    a_plate_is_a_print, heights_are_the_tops, layers_have_their_slices, places_are_the_filled_ones,
    the_layer_with_a_top_is_found, tools_are_those_of_the_layers,
};
