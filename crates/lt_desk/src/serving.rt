ghost use Rattle.std.specs.Prelude.{◌≡◌, ◌≢◌, ◌==◌, ◌&&◌, ◌||◌, length, Some, None, true, false, [], if◌then◌else◌};
ghost use Rattle.lt_modes.specs.Modes.{Modes, bars, is_within};
ghost use Rattle.lt_modes.specs.State.{own_part};
ghost use Rattle.lt_modes.specs.Serving.{is_served, is_void, is_gone, is_clear_at_home};
ghost use Rattle.lt_modes.specs.HandingOver.{may_draw};
ghost use Rattle.lt_desk.specs.Picks.{picked, first_of, hand_over_or_none, IsInQueue, turn_by, is_draw};
ghost use Rattle.lt_desk.specs.declared.pick.Pick.TheVariants.{Local, Copy};
ghost use Rattle.lt_desk.specs.Sights.{sight_state, desk_of};

use crate::pick::{Pick, Turn};
use crate::sight::Sight;
use lt_modes::{Ask, ModeSet};

impl Sight<'_> {
    /// Looks once at each ask, up to the first that is served, or to where no later one can be.
    pub(crate) fn pick(&self) -> Pick
        ensures next { result ≡ picked self.now.me (sight_state self.now) }
        ensures within { IsInQueue (length self.now.queue.now.asks) result }
    {
        let asks = self.queue.asks();
        if asks.is_empty() {
            return Pick::Nothing;
        }
        let wanted = self.queue.modes();
        let own = self.own_part();
        let mut barred = ModeSet::empty();
        let mut draw = None;
        for k in 0..self.queue.len() {
            let ask = &asks[k as usize];
            let turn = self.turn(barred, own, k, ask);
            if turn.is_served() {
                return service(k, ask.node == self.me);
            }
            draw = first_draw(draw, turn, k);
            barred = barred.union(ModeSet::barred_by(ask.mode));
            if self.none_later(wanted, barred) {
                return draw_at(draw);
            }
        }
        draw_at(draw)
    }

    // Whether no later ask can be served: all that is asked for is barred, and no ask was given up.
    fn none_later(&self, wanted: ModeSet, barred: ModeSet) -> bool
        ensures alone { result ≡ true → self.now.gone.now ≡ [] }
        ensures within { result ≡ true → is_within wanted barred ≡ true }
    {
        self.gone.is_empty() && wanted.is_within(barred)
    }

    // Whether the ask is of this node and was given up.
    fn is_void(&self, ask: &Ask) -> bool
        ensures { result ≡ is_void self.now.me (sight_state self.now) ask.now }
    {
        ask.node == self.me && self.is_gone(ask.client)
    }

    // Whether the client's unanswered ask was given up.
    #[inline(always)]
    fn is_gone(&self, client: u16) -> bool
        ensures { result ≡ is_gone (sight_state self.now) client }
    {
        !self.gone.is_empty() && self.finds(client)
    }

    // The same where some ask was given up.
    #[inline(never)]
    fn finds(&self, client: u16) -> bool
        ensures { result ≡ is_gone (sight_state self.now) client }
    {
        self.gone.iter().any(|other| *other == client)
    }

    // What becomes of the ask at place k: `barred` is what the asks before it bar, `own` the own part of the desk's node.
    #[inline(always)]
    fn turn(&self, barred: ModeSet, own: ModeSet, k: u32, ask: &Ask) -> Turn
        requires { own ≡ own_part self.now.me (sight_state self.now) (desk_of self.now) }
        ensures { (before : Modes) → barred ≡ bars before
            → result ≡ turn_by (is_served self.now.me (sight_state self.now) (desk_of self.now) before ask.now)
            (may_draw self.now.me (sight_state self.now) (desk_of self.now) before k ask.now) }
    {
        if self.is_void(ask) {
            return Turn::Served;
        }
        if barred.has(ask.mode) {
            return Turn::Later;
        }
        let others = self.others_with(ask.node, own);
        if others.bars().has(ask.mode) {
            return Turn::Later;
        }
        if ask.node == self.me {
            local_turn(self.is_clear_here(ask.client, ask.mode))
        } else {
            remote_turn(self.is_clear_at_home(ask), others.covers(ask.mode), k)
        }
    }

    // Whether the ask's node, which isn't the desk's, has no mode that conflicts.
    fn is_clear_at_home(&self, ask: &Ask) -> bool
        requires { ask.now.node ≢ self.now.me }
        ensures { result ≡ is_clear_at_home self.now.me (sight_state self.now) (desk_of self.now) ask.now }
    {
        !self.table.rec(ask.node).bars().has(ask.mode)
    }
}

// What becomes of a free ask of the desk's node.
fn local_turn(clear: bool) -> Turn
    ensures { result ≡ turn_by clear false }
{
    if clear { Turn::Served } else { Turn::Later }
}

// What becomes of a free ask of another node at place k, which may be clear at its node and covered by the others.
fn remote_turn(clear: bool, covered: bool, k: u32) -> Turn
    ensures { result ≡ turn_by (covered && clear) (k == 0 || clear) }
{
    if clear && covered {
        Turn::Served
    } else if k == 0 || clear {
        Turn::Draws
    } else {
        Turn::Later
    }
}

// The place noted before; where there is none, place k if its ask may draw the desk.
fn first_draw(draw: Option<u32>, turn: Turn, k: u32) -> Option<u32>
    ensures { result ≡ first_of draw (if is_draw turn then Some k else None) }
{
    if draw.is_some() {
        return draw;
    }
    match turn {
        Turn::Draws => Some(k),
        Turn::Served | Turn::Later => None,
    }
}

// The service of the ask at place k, here or at another node.
fn service(k: u32, here: bool) -> Pick
    ensures { result ≡ (if here then Local k else Copy k) }
{
    if here { Pick::Local(k) } else { Pick::Copy(k) }
}

// The move of the desk to the node of the ask at this place.
fn draw_at(draw: Option<u32>) -> Pick
    ensures { result ≡ hand_over_or_none draw }
{
    match draw {
        Some(k) => Pick::HandOver(k),
        None => Pick::Nothing,
    }
}
