// The addresses that 32 and 33 gave.
ghost use Rattle.std.specs.Prelude.{◌≡◌, ◌||◌};
ghost use Rattle.card.specs.Record.{no_erase, is_set, address};

use card::EraseMarks;

// The address of a mark; 0 where there is none.
pub fn address(mark: Option<u32>) -> u32
    ensures { result ≡ address mark }
{
    match mark {
        None => 0,
        Some(address) => address,
    }
}

pub fn no_erase() -> EraseMarks
    ensures { result ≡ no_erase }
{
    EraseMarks {
        first: None,
        second: None,
    }
}

// Some erase address is marked.
pub fn pending(e: EraseMarks) -> bool
    ensures { result ≡ (is_set e.first || is_set e.second) }
{
    e.first.is_some() || e.second.is_some()
}
