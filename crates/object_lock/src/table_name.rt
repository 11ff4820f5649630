//! The name of a table, for ghost values that name one.
use crate::shape::Shape;
use std::marker::Model;

/// Which table it is, for ghost values that name one. No value of it is made.
pub struct TableName {
    pub shape: Shape,
}

impl Model for TableName {
    ghost use Rattle.std.specs.Prelude.{[]};
    ghost use Rattle.object_lock.specs.Seats.{sizes};
    ghost use Rattle.object_lock.specs.SeatViews.{TableView};

    ghost Value = { TableView };

    ghost view = { λ t. record { id = record { words = 0; slots = 0; views_name = 0; atom = 0; block = 0; offset = 0; slot_names = [] }; sizes = sizes t.shape } };
}
