//! A connection between transactions.

use sqlite::{Alter, Connection};
use std::marker::Model;

/// A connection that is in no transaction. Contracts see it as the connection. If you borrow the connection itself, to ask or to make
/// a transaction, leave it in none.
#[derive(Drop)]
pub struct Idle<S: Alter> {
    pub connection: Connection<S>,
}

impl<S: Alter> Model for Idle<S> {
    ghost use Rattle.std.specs.Prelude.{◌≡◌, false};
    ghost use Rattle.sqlite.specs.Held.{Held, held_code};

    ghost Value = { Held S };

    ghost coded = { held_code S.code };

    ghost view = { λ c. c.connection };

    ghost invariant = { λ c. c.connection.in_transaction ≡ false };
}
