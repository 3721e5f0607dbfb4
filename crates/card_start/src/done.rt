// What a command that ran comes to.
ghost use Rattle.std.specs.Prelude.{◌≡◌};
ghost use Rattle.card.specs.Execute.{ran};

use card::Core;
use card::done::{Done, Effect, Response};

// It leaves memory and marks.
pub fn ran(c: Core, response: Response) -> Done
    ensures { result ≡ ran c response }
{
    Done {
        core: c,
        response,
        effect: Effect::Nothing,
    }
}
