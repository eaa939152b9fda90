//! Where an element is among the blocks.
use std::marker::Model;

/// Where an element is, or would go: in which block, and where in it. Use it only with the list
/// that returned it, until an insertion or a push there succeeds, or the next removal.
#[derive(Clone, Copy)]
pub struct Place {
    pub(crate) block: usize,
    pub(crate) at: usize,
}

impl Model for Place {
    ghost use Rattle.tiered_vec.specs.Place.{Position, position_code};

    ghost Value = { Position };

    ghost coded = { position_code };

    ghost view = { λ p. record { block = p.block; at = p.at } };

    ghost inverse = { λ p. record { block = p.block; at = p.at } };
}
