ghost use Rattle.std.specs.Prelude.{◌≡◌, ◌<◌, ◌≤◌, ◌*◌, ◌%◌, length};
ghost use Rattle.lt_turns.specs.Turns.{rank_of, player_of, AreLeast, AreLeaves, IsFirstAfter, nearest_leaf};

/// The rank where there is no turn, and that of a turn whose number is too great to have one: the greatest rank.
pub(crate) const NO_TURN: u64 = 1 << 63;

// Lesser numbers have a rank of their own for each player.
const RANKED: u64 = 1 << 47;

/// The turn of this number and player as one number: of two turns the first one has the lesser rank.
pub(crate) fn rank_of(number: Option<u64>, player: u16) -> u64
    ensures { result ≡ rank_of number player }
{
    match number {
        Some(number) if number < RANKED => number * 65536 + u64::from(player),
        _ => NO_TURN,
    }
}

/// The player whose turn has this rank, where there is one.
pub(crate) fn player_of(rank: u64) -> Option<u16>
    ensures { result ≡ player_of rank }
{
    if rank == NO_TURN {
        return None;
    }
    Some((rank % 65536) as u16)
}

/// Gives the leaf this rank, and goes up from there to find the least rank of each node anew, until it is the one that
/// the node had.
pub(crate) fn update(ranks: &mut [u64], leaf: usize, rank: u64)
    requires even { length ranks.old % 2 ≡ 0 }
    requires leaf { length ranks.old ≤ 2 * leaf }
    requires inside { leaf < length ranks.old }
    requires least { AreLeast ranks.old }
    ensures count { length ranks.new ≡ length ranks.old }
    ensures leaves { AreLeaves ranks.old leaf rank ranks.new }
    ensures least { AreLeast ranks.new }
{
    ranks[leaf] = rank;
    let mut node = leaf / 2;
    while node > 0 {
        let least = ranks[2 * node].min(ranks[2 * node + 1]);
        if ranks[node] == least {
            return;
        }
        ranks[node] = least;
        node /= 2;
    }
}

/// The least rank of the leaves that is greater than this one.
pub(crate) fn first_after(ranks: &[u64], here: u64) -> u64
    requires { length ranks.now % 2 ≡ 0 }
    ensures { IsFirstAfter ranks.now here (length ranks.now) result }
{
    let mut first = NO_TURN;
    for leaf in ranks.len() / 2..ranks.len() {
        first = nearest_leaf(here, first, ranks[leaf]);
    }
    first
}

// The second rank where it lies between the other two, else the first one.
fn nearest_leaf(here: u64, first: u64, second: u64) -> u64
    ensures { result ≡ nearest_leaf here first second }
{
    if here < second && second < first {
        second
    } else {
        first
    }
}
