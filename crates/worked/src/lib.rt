// The worked examples: proved in the logic by one computed test of the whole table, and run in both float formats.
#![tactic(auto)]

ghost use Rattle.std.specs.Prelude.{◌≡◌, length};
ghost use Rattle.worked.specs.Examples.{Worked, table};

// How many rows the table has: each of them holds, in f64 and in f32.
pub fn worked_examples() -> usize
    ensures rows { result ≡ length table }
    ensures hold { Worked }
{
    4
}

#[cfg(test)]
mod runs;
