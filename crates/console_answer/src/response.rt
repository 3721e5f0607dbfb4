// The answer to a block as the console writes it.
ghost use Rattle.std.specs.Prelude.{◌≡◌};
ghost use Rattle.card.specs.Step as Step;
ghost use Rattle.console_answer.specs.Response.{response_of};

use card::answer::Answer;

// The byte of a data answer in SPI mode.
pub fn data_response(answer: Answer) -> Option<u8>
    ensures { result ≡ response_of (Step.answer answer) }
{
    match answer {
        Answer::Accepted => Some(0x05),
        Answer::Rejected => Some(0x0B),
        _ => None,
    }
}
