// The short form of the card status, which R6 carries.
ghost use Rattle.std.specs.Prelude.{◌≡◌};
ghost use Rattle.wire_response.specs.Status.{short_status};

pub fn short_status(status: u32) -> u16
    ensures { result ≡ short_status status }
{
    let high = ((status >> 22) & 3) << 1 | ((status >> 19) & 1);
    (high << 13 | (status & 0x1FFF)) as u16
}
