// A station lies in a pool, and goes on from what it was.
use crate::station::Station;
use lt_pool::Same;

impl Same for Station {
    ghost use Rattle.lt_live.specs.Live.{StationGoesOn, station_goes_on_itself};

    ghost continues = { StationGoesOn };

    ghost continues_itself = { station_goes_on_itself };
}
