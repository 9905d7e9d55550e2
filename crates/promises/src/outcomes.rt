//! What a search through all runs finds, and what `outcomes` prints of it.

pub mod all_states;
pub mod shown_states;
pub mod some_states;
