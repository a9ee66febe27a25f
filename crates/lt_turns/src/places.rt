ghost use Rattle.std.specs.Prelude.{◌≡◌, ◌<◌, ◌^◌, ℕ, None, length, slice_index_or};
ghost use Rattle.lt_turns.specs.Turns.{AreSmall, IsFirst, IsLeastFrom, IsNext, nearer_place, player_at_place, turn_place};

// The place where there is no turn: the last one.
const NO_PLACE: u128 = 1 << 80;

/// The first player of those that can act, whatever the numbers of their turns. Goes through all players.
#[cold]
#[inline(never)]
pub(crate) fn first_of_all(numbers: &[Option<u64>]) -> Option<u16>
    requires few { length numbers.now < 2 ^ 16 }
    requires small { AreSmall numbers.now }
    ensures { IsFirst numbers.now result }
{
    player_at_place(least_from(numbers, 0))
}

/// The first player of those that come after this one, whatever the numbers of their turns. Goes through all players.
#[cold]
#[inline(never)]
pub(crate) fn first_after_turn(numbers: &[Option<u64>], player: u16) -> Option<u16>
    requires few { length numbers.now < 2 ^ 16 }
    requires small { AreSmall numbers.now }
    requires inside { player < length numbers.now }
    ensures { IsNext numbers.now player result }
{
    let here = turn_place(numbers[usize::from(player)], player);
    player_at_place(least_from(numbers, here + 1))
}

// The least place of a turn, from this one on.
fn least_from(numbers: &[Option<u64>], from: u128) -> u128
    requires few { length numbers.now < 2 ^ 16 }
    requires small { AreSmall numbers.now }
    ensures { IsLeastFrom numbers.now from (length numbers.now) result }
{
    let mut first = NO_PLACE;
    for player in 0..numbers.len() {
        first = nearer_place(from, first, turn_place(numbers[player], player as u16));
    }
    first
}

// The place of the player's turn.
fn turn_place(number: Option<u64>, player: u16) -> u128
    ensures { result ≡ turn_place number player }
{
    match number {
        Some(number) => u128::from(number) * 65536 + u128::from(player),
        None => NO_PLACE,
    }
}

// The player whose turn has this place, where there is one.
fn player_at_place(place: u128) -> Option<u16>
    ensures { result ≡ player_at_place place }
{
    if place == NO_PLACE {
        return None;
    }
    Some((place % 65536) as u16)
}

// The second place where it lies before the first one, but not before where to begin, else the first one.
fn nearer_place(from: u128, first: u128, second: u128) -> u128
    ensures { result ≡ nearer_place from first second }
{
    if second >= from && second < first {
        second
    } else {
        first
    }
}
