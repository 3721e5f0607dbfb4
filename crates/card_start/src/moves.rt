// A move by the transition table, to the state that the command's row gives in the bus mode.
ghost use Rattle.std.specs.Prelude.{◌≡◌};
ghost use Rattle.card.specs.Execute.{ran, moved, opening};

use crate::done::ran;
use card::command::Command;
use card::done::{Done, Response};
use card::{Core, State};
use card_record::with_state;
use card_table::after;

// A plain move, with no transfer of its own.
pub fn moved(command: Command, c: Core) -> Core
    ensures { result ≡ moved command c }
{
    with_state(c, after(command, c.bus, c.bus.state))
}

// A command that only moves the card.
pub fn moving(command: Command, c: Core, response: Response) -> Done
    ensures { result ≡ ran (moved command c) response }
{
    ran(moved(command, c), response)
}

// A move that opens the transfer t.
pub fn opening(command: Command, c: Core, t: State) -> Core
    ensures { result ≡ opening command c t }
{
    with_state(c, after(command, c.bus, t))
}
