// The clock record moves in place.
ghost use Rattle.std.specs.Prelude.{◌≡◌, ◌<◌};
ghost use Rattle.tables.specs.Clock.{later};

use tables::{Clock, Row};

// The stamp and the row count move in one call.
pub fn advance(c: &mut Clock, rows: Row)
    requires { c.old.stamp.0 < 4294967295 }
    ensures { c.new ≡ later c.old rows }
{
    *c = tables::advanced(*c, rows);
}

// A clock by value, moved in place.
pub fn ticked(c: Clock, rows: Row) -> Clock
    requires { c.stamp.0 < 4294967295 }
    ensures { result ≡ later c rows }
{
    let mut local = c;
    advance(&mut local, rows);
    local
}
