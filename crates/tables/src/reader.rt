// The reader of a ride.
ghost use Rattle.std.specs.Prelude.{IfOk};
ghost use Rattle.tables.specs.Numbers.{map_ok};
ghost use Rattle.tables.specs.Parts.{said_of};
ghost use Rattle.tables.specs.Rides.{ride_of, Sound};
ghost use Rattle.tables.specs.Tables.{Tells};

use crate::faults::Fault;
use crate::lines::Lines;
use crate::number::Limit;
use std::alloc::Global;

// What a text says of a ride.
#[derive(Drop)]
pub struct Ride {
    // segment, t, h, z, v, dz, dv
    pub checkpoints: Vec<[i64; 7]>,
    // t, dg
    pub samples: Vec<[i64; 2]>,
    // start, k, c, g, b
    pub settings: [i64; 5],
}

// Reads the whole text, from top to bottom, or tells the first thing that is wrong. No number may be further from 0 than
// `largest`.
pub fn read(heap: Global, input: &[u8], largest: u64) -> Result<Ride, Fault>
    ensures reads { Tells (ride_of largest input.now) (map_ok said_of result) }
    ensures sound { IfOk result (λ ride. Sound largest (said_of ride)) }
{
    let limit = Limit::new(largest);
    let mut lines = Lines::new(input);
    Ok(Ride {
        checkpoints: lines.checkpoints(heap, limit)?,
        samples: lines.samples(heap, limit)?,
        settings: lines.settings(limit)?,
    })
}
