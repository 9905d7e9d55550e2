//! Which relations a model has acyclic together. (herd's `x86tso.cat`.)

use refutation_laws::Model;

/// Which relations are acyclic together.
#[derive(Clone, Copy)]
pub enum Acyclic {
    /// Those on one location: uniproc.
    OnLocation,
    /// The model's global ones.
    Globally(Model),
}
